// Pick, settle and pick of a set: statements run in place, one after the other, in one loop.
ghost use Rattle.std.specs.Prelude.{◌≡◌, ◌≤◌};
ghost use Rattle.base.specs.Refusals.{told};
ghost use Rattle.cycle.specs.View.{view_of, Valid, Answers, picked_by};
ghost use Rattle.expressions.specs.Lent.{model_of_program};
ghost use Rattle.cycle.specs.Turns.{picks_refusal, turns_of, Tellable, Named, reply_of};

use crate::config::Config;
use crate::orders::{Answer, Answered};
use base::refusal::Refusal;
use due::any_standing;
use expressions::effect::{effect_of, next_place};
use expressions::program::{Program, Readings};
use members::{any_stopped, pick_refusal, set_refusal};
use rules::effect::Effect;
use rules::{NO_NODE, READY, STOPPED, WAITING};
use sets::has;

// The picks that an order asks for.
#[derive(Clone, Copy)]
pub enum Picks {
    // one, of the process
    One(usize),
    // of the lowest ready process, until none is ready or that many are made
    Settle(usize),
    // one of each process of the set, bit n for process n
    Set(usize),
}

// Every process.
pub const ALL: usize = 65535;

// The loop's part: from process first on those of the set, at most count picks; behind a pick it goes on by the stride.
#[derive(Clone, Copy)]
pub struct Turns {
    pub first: usize,
    pub count: usize,
    pub set: usize,
    pub stride: usize,
}

// The refusal of the picks.
fn refusal_of<'a>(
    which: Picks,
    standings: &'a [usize; 16],
    nprocesses: usize,
) -> Result<(), Refusal>
    requires { nprocesses ≤ 16 }
    ensures { told result ≡ picks_refusal which standings.now nprocesses }
{
    match which {
        Picks::One(p) => pick_refusal(standings, nprocesses, p),
        Picks::Settle(_) => Ok(()),
        Picks::Set(set) => set_refusal(standings, nprocesses, set),
    }
}

// The part of the loop: nothing where the picks are refused.
fn turns_of(which: Picks, refusal: Result<(), Refusal>) -> Turns
    ensures { result ≡ turns_of which (told refusal) }
{
    if refusal.is_err() {
        return Turns {
            first: 0,
            count: 0,
            set: 0,
            stride: 0,
        };
    }
    match which {
        Picks::One(p) => Turns {
            first: p,
            count: 1,
            set: ALL,
            stride: 0,
        },
        Picks::Settle(count) => Turns {
            first: 0,
            count,
            set: ALL,
            stride: 0,
        },
        Picks::Set(set) => Turns {
            first: 0,
            count: 16,
            set,
            stride: 1,
        },
    }
}

// The answer, n picks having been made.
fn reply<'a>(
    which: Picks,
    refusal: Result<(), Refusal>,
    standings: &'a [usize; 16],
    faults: &'a [u32; 16],
    nodes: &'a [u32; 16],
    nprocesses: usize,
    n: usize,
) -> Answer
    requires nprocesses_bound { nprocesses ≤ 16 }
    requires named { Named which (told refusal) nprocesses }
    requires tellable { Tellable faults.now nodes.now nprocesses }
    ensures { result ≡ reply_of which (told refusal) standings.now faults.now nodes.now nprocesses n }
{
    if let Err(refusal) = refusal {
        return Answer::refused(refusal.number());
    }
    match which {
        Picks::One(p) => Answer {
            refusal: 0,
            byte: standings[p],
            picks: n,
            value: faults[p] + 65536 * nodes[p],
        },
        Picks::Settle(_) => Answer {
            refusal: 0,
            byte: usize::from(any_standing(standings, nprocesses, READY)),
            picks: n,
            value: 0,
        },
        Picks::Set(set) => Answer {
            refusal: 0,
            byte: usize::from(any_stopped(standings, set)),
            picks: n,
            value: 0,
        },
    }
}

impl Config {
    // One method, in place, for pick, settle and pick of a set: a configuration is large to copy.
    pub fn picks(mut self, program: &Program, which: Picks) -> Answered
        requires { Valid (model_of_program program.now) self }
        ensures { Answers (model_of_program program.now) result (picked_by (model_of_program program.now) which (view_of self)) }
    {
        let now = self.time;
        let nprocesses = self.nprocesses;
        let refusal = refusal_of(which, &self.standings, nprocesses);
        let turns = turns_of(which, refusal);
        let count = turns.count;
        let set = turns.set;
        let stride = turns.stride;
        // Stays: a settle comes back to the same process, and a pick of a set goes on, so the place is no counter of the loop.
        let mut at = turns.first;
        let mut n = 0;
        while (n < count) & (at < nprocesses) {
            let p = at;
            let standing = self.standings[p];
            if (standing != READY) | !has(set, p) {
                at += 1;
                continue;
            }
            at += stride;
            n += 1;
            let place = self.places[p];
            let readings = Readings {
                variables: &self.variables,
                signals: &self.signals,
            };
            let effect = effect_of(program, &readings, place);
            let next = next_place(program, p, place);
            match effect {
                Effect::Skip => {
                    self.places[p] = next;
                }
                Effect::Store(a, v) => {
                    self.variables[a] = v;
                    self.places[p] = next;
                }
                Effect::Schedule(k, d, v, w) => match self.drivers[k].schedule(d, v, w) {
                    Some(driver) => {
                        self.due[k] = driver.first_time(now);
                        self.drivers[k] = driver;
                        self.places[p] = next;
                    }
                    None => {
                        self.standings[p] = STOPPED;
                        self.faults[p] = 3;
                        self.nodes[p] = NO_NODE;
                    }
                },
                Effect::Jump(a) => {
                    self.places[p] = a;
                }
                Effect::Wait => {
                    self.standings[p] = WAITING;
                }
                Effect::WaitFor(d) => {
                    self.standings[p] = WAITING;
                    self.deadlines[p] = now + u64::from(d);
                }
                Effect::Stop(f) => {
                    self.standings[p] = STOPPED;
                    self.faults[p] = f.fault;
                    self.nodes[p] = f.node;
                }
            }
        }
        let answer = reply(
            which,
            refusal,
            &self.standings,
            &self.faults,
            &self.nodes,
            nprocesses,
            n,
        );
        Answered {
            answer,
            config: self,
        }
    }
}
