// Order 7, a time step. In place: a configuration is large to copy.
ghost use Rattle.rules.specs.Orders.{time_stepped};
ghost use Rattle.expressions.specs.Lent.{model_of_program};
ghost use Rattle.cycle.specs.View.{view_of, Valid, Answers};

use crate::config::Config;
use crate::orders::{Answer, Answered};
use due::{next_due, time_refusal};
use expressions::program::Program;
use steps::time::shift;

impl Config {
    pub fn time_step(mut self, program: &Program) -> Answered
        requires { Valid (model_of_program program.now) self }
        ensures { Answers (model_of_program program.now) result (time_stepped (model_of_program program.now) (view_of self)) }
    {
        let nsignals = self.nsignals;
        let ndrivers = self.ndrivers;
        let nprocesses = self.nprocesses;
        let time = self.time;
        let t = next_due(&self.due, &self.deadlines, nprocesses, ndrivers, time);
        if let Err(refusal) = time_refusal(&self.standings, nprocesses, t, time) {
            return self.refused(refusal);
        }
        // The step to the earliest due time: the past of each signal shifts and pending times come nearer by the units passed.
        let passed = t - time;
        shift(&mut self.signals, nsignals, passed);
        for k in 0..ndrivers {
            self.drivers[k] = self.drivers[k].elapsed(passed);
        }
        self.time = t;
        self.deltas = 0;
        Answered {
            answer: Answer {
                refusal: 0,
                byte: 2,
                picks: 0,
                value: 0,
            },
            config: self,
        }
    }
}
