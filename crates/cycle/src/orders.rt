// What every order hands back, the refusal of an order, pick, settle, pick of a set and read.
ghost use Rattle.std.specs.Prelude.{◌≡◌, ◌≤◌};
ghost use Rattle.base.specs.Refusals.{number_of};
ghost use Rattle.rules.specs.Orders.{refused, picked, settled, picked_set};
ghost use Rattle.expressions.specs.Lent.{model_of_program};
ghost use Rattle.cycle.specs.View.{view_of, Valid, Answers, outcome_of, refused_answer, ReadTo, Keeps};

use crate::config::Config;
use crate::picks::Picks;
use base::refusal::Refusal;
use expressions::program::Program;

// An answer, without the time.
// Stays: the refusal is its number, 0 where there is none, and the byte may be a standing: an answer's bytes have them so (`answer_bytes`).
#[derive(Clone, Copy)]
pub struct Answer {
    pub refusal: usize,
    pub byte: usize,
    pub picks: usize,
    pub value: u32,
}

// The answer, and the configuration that the order hands back.
#[derive(Drop)]
pub struct Answered {
    pub answer: Answer,
    pub config: Config,
}

impl Answer {
    // "1 to 7 [..] when refused, are zero"
    pub fn refused(n: usize) -> Answer
        ensures { result ≡ refused_answer n }
    {
        Answer {
            refusal: n,
            byte: 0,
            picks: 0,
            value: 0,
        }
    }
}

impl Config {
    // A refused order hands the configuration back as it was.
    pub(crate) fn refused(self, refusal: Refusal) -> Answered
        ensures result_value { outcome_of result ≡ refused (number_of refusal) (view_of self) }
        ensures keeps { Keeps self result }
    {
        Answered {
            answer: Answer::refused(refusal.number()),
            config: self,
        }
    }

    // One statement of process p.
    pub fn pick(self, program: &Program, p: usize) -> Answered
        requires { Valid (model_of_program program.now) self }
        ensures { Answers (model_of_program program.now) result (picked (model_of_program program.now) p (view_of self)) }
    {
        self.picks(program, Picks::One(p))
    }

    // Picks of the lowest ready process until none is ready or count picks are made.
    pub fn settle(self, program: &Program, count: usize) -> Answered
        requires { Valid (model_of_program program.now) self }
        ensures { Answers (model_of_program program.now) result (settled (model_of_program program.now) count (view_of self)) }
    {
        self.picks(program, Picks::Settle(count))
    }

    // One statement of each process of the set, bit n for process n.
    pub fn pick_set(self, program: &Program, set: usize) -> Answered
        requires { Valid (model_of_program program.now) self }
        ensures { Answers (model_of_program program.now) result (picked_set (model_of_program program.now) set (view_of self)) }
    {
        self.picks(program, Picks::Set(set))
    }

    // The current value of signal s.
    pub fn read(self, s: usize) -> Answered
        requires { self.nsignals ≤ 32 }
        ensures read_to { ReadTo s self result }
        ensures keeps { Keeps self result }
    {
        if s >= self.nsignals {
            return self.refused(Refusal::NoSignal);
        }
        let v = self.signals[32 * s];
        Answered {
            answer: Answer {
                refusal: 0,
                byte: 0,
                picks: 0,
                value: v,
            },
            config: self,
        }
    }
}
