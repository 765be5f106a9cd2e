// What is due, and the refusals of a delta step and of a time step.
#![tactic(auto)]

ghost use Rattle.std.specs.Prelude.{◌≡◌, ℕ, ◌≤◌, length};
ghost use Rattle.base.specs.Refusals.{told};
ghost use Rattle.waveforms.specs.Pending.{NoneBefore};
ghost use Rattle.due.specs.Due.{soonest_of, soonest_in, some_is, told_or, standing_refusal, delta_refusal, time_refusal};

use base::refusal::Refusal;
use rules::{DELTA_LIMIT, LAST_TIME, READY, STOPPED};
use waveforms::driver::NEVER;

// The earliest of the first n times, or the largest number where there is none. No time is before `time`, so one that equals it ends
// the search.
fn earliest(times: &[u64], n: usize, time: u64) -> u64
    requires n_in_bounds { n ≤ length times.now }
    requires none_before { NoneBefore time times.now n }
    ensures { result ≡ soonest_of times.now n }
{
    let mut t = NEVER;
    for x in &times[..n] {
        if *x == time {
            return time;
        }
        t = t.min(*x);
    }
    t
}

// The earliest due time, or the largest number where nothing is ever due.
pub fn next_due<'a>(
    due: &'a [u64; 64],
    deadlines: &'a [u64; 16],
    nprocesses: usize,
    ndrivers: usize,
    time: u64,
) -> u64
    requires nprocesses_bound { nprocesses ≤ 16 }
    requires ndrivers_bound { ndrivers ≤ 64 }
    requires none_before { NoneBefore time due.now ndrivers }
    requires none_before_2 { NoneBefore time deadlines.now nprocesses }
    ensures { result ≡ soonest_in due.now ndrivers deadlines.now nprocesses }
{
    let first = earliest(due, ndrivers, time);
    first.min(earliest(deadlines, nprocesses, time))
}

// Whether one of the first n processes has the standing.
pub fn any_standing(standings: &[usize; 16], n: usize, standing: usize) -> bool
    requires { n ≤ 16 }
    ensures { result ≡ some_is standings.now n standing }
{
    (0..n).any(|p| standings[p] == standing)
}

// The refusal by the standings.
fn standing_refusal(standings: &[usize; 16], nprocesses: usize) -> Result<(), Refusal>
    requires { nprocesses ≤ 16 }
    ensures { (n : ℕ) → told_or result n ≡ standing_refusal standings.now nprocesses n }
{
    if any_standing(standings, nprocesses, READY) {
        return Err(Refusal::StillReady);
    }
    if any_standing(standings, nprocesses, STOPPED) {
        return Err(Refusal::Stopped);
    }
    Ok(())
}

// The refusal of a delta step, where t is the earliest due time.
pub fn delta_refusal(
    standings: &[usize; 16],
    nprocesses: usize,
    t: u64,
    time: u64,
    deltas: u64,
) -> Result<(), Refusal>
    requires { nprocesses ≤ 16 }
    ensures { told result ≡ delta_refusal standings.now nprocesses t time deltas }
{
    standing_refusal(standings, nprocesses)?;
    if t != time {
        return Err(Refusal::NothingDueNow);
    }
    if deltas >= DELTA_LIMIT {
        return Err(Refusal::DeltaLimit);
    }
    Ok(())
}

// The refusal of a time step, where t is the earliest due time.
pub fn time_refusal(
    standings: &[usize; 16],
    nprocesses: usize,
    t: u64,
    time: u64,
) -> Result<(), Refusal>
    requires { nprocesses ≤ 16 }
    ensures { told result ≡ time_refusal standings.now nprocesses t time }
{
    standing_refusal(standings, nprocesses)?;
    if t == time {
        return Err(Refusal::DueNow);
    }
    if t == NEVER {
        return Err(Refusal::NeverDue);
    }
    if t > LAST_TIME {
        return Err(Refusal::TooLate);
    }
    Ok(())
}
