// Order 6, a delta step. In place: a configuration is large to copy.
ghost use Rattle.rules.specs.Orders.{delta_stepped};
ghost use Rattle.expressions.specs.Lent.{model_of_program};
ghost use Rattle.cycle.specs.View.{view_of, Valid, Answers};

use crate::config::Config;
use crate::orders::{Answer, Answered};
use due::{delta_refusal, next_due};
use expressions::program::{Program, Readings};
use steps::delta::{Processes, actives, keep, resolve, wake};

impl Config {
    pub fn delta_step(mut self, program: &Program) -> Answered
        requires { Valid (model_of_program program.now) self }
        ensures { Answers (model_of_program program.now) result (delta_stepped (model_of_program program.now) (view_of self)) }
    {
        let nsignals = self.nsignals;
        let ndrivers = self.ndrivers;
        let nprocesses = self.nprocesses;
        let time = self.time;
        let t = next_due(&self.due, &self.deadlines, nprocesses, ndrivers, time);
        if let Err(refusal) = delta_refusal(&self.standings, nprocesses, t, time, self.deltas) {
            return self.refused(refusal);
        }
        // Each due transaction becomes its driver's current value and leaves; then the signals, then the processes.
        let active = actives(program, &self.due, ndrivers, time);
        for k in 0..ndrivers {
            if self.due[k] == time {
                let d = self.drivers[k];
                let e = d.without_first();
                self.currents[k] = d.values[0];
                self.due[k] = e.first_time(time);
                self.drivers[k] = e;
            }
        }
        keep(&mut self.signals, nsignals);
        let currents = self.currents;
        let changed = resolve(
            program,
            &currents,
            ndrivers,
            active,
            &mut self.signals,
            nsignals,
        );
        let places = self.places;
        let standings = self.standings;
        let deadlines = self.deadlines;
        let faults = self.faults;
        let nodes = self.nodes;
        let ps = Processes {
            places,
            standings,
            deadlines,
            faults,
            nodes,
        };
        let readings = Readings {
            variables: &self.variables,
            signals: &self.signals,
        };
        let r = wake(program, &readings, changed, time, nprocesses, ps);
        let woken_places = r.places;
        let woken_standings = r.standings;
        let woken_deadlines = r.deadlines;
        let woken_faults = r.faults;
        let woken_nodes = r.nodes;
        self.places = woken_places;
        self.standings = woken_standings;
        self.deadlines = woken_deadlines;
        self.faults = woken_faults;
        self.nodes = woken_nodes;
        self.deltas += 1;
        Answered {
            answer: Answer {
                refusal: 0,
                byte: 1,
                picks: 0,
                value: 0,
            },
            config: self,
        }
    }
}
