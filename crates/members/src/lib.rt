// Picks of a process and of the processes of a set, by the standings: the refusal, and whether one of the set has stopped.
#![tactic(auto)]

ghost use Rattle.std.specs.Prelude.{◌≡◌, ◌≤◌};
ghost use Rattle.base.specs.Refusals.{told};
ghost use Rattle.members.specs.Members.{pick_refusal, set_refusal, stopped_in};

use base::refusal::Refusal;
use rules::{READY, STOPPED};
use sets::has;

// The refusal of a pick of process p.
pub fn pick_refusal(standings: &[usize; 16], nprocesses: usize, p: usize) -> Result<(), Refusal>
    requires { nprocesses ≤ 16 }
    ensures { told result ≡ pick_refusal standings.now nprocesses p }
{
    if p >= nprocesses {
        return Err(Refusal::NoProcess);
    }
    if standings[p] != READY {
        return Err(Refusal::NotReady);
    }
    Ok(())
}

// The refusal of a pick of each process of the set.
pub fn set_refusal(standings: &[usize; 16], nprocesses: usize, set: usize) -> Result<(), Refusal>
    ensures { told result ≡ set_refusal standings.now nprocesses set }
{
    let mut refusal = Ok(());
    for p in 0..16 {
        if has(set, p) {
            if p >= nprocesses {
                return Err(Refusal::NoProcess);
            }
            if standings[p] != READY {
                refusal = Err(Refusal::NotReady);
            }
        }
    }
    refusal
}

// Whether a process of the set has stopped.
pub fn any_stopped(standings: &[usize; 16], set: usize) -> bool
    ensures { result ≡ stopped_in standings.now set }
{
    (0..16).any(|p| has(set, p) & (standings[p] == STOPPED))
}
