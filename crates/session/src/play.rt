// A list of orders, played one after the other.
ghost use Rattle.std.specs.Prelude.{◌≡◌, ◌*◌, ◌/◌, length};
ghost use Rattle.blocks.specs.Records.{Model};
ghost use Rattle.rules.specs.Configuration.{Configuration};
ghost use Rattle.expressions.specs.Lent.{model_of_program};
ghost use Rattle.cycle.specs.View.{Valid, view_of};
ghost use Rattle.session.specs.Actions.{done_by};
ghost use Rattle.session.specs.Lists.{order, performed};
ghost use Rattle.session.specs.Sessions.{PlayedTo};

use crate::encode::put_answer;
use base::{byte, word};
use cycle::config::Config;
use cycle::orders::Answer;
use cycle::picks::Picks;
use expressions::program::Program;

// What an order does.
#[derive(Clone, Copy)]
pub enum Action {
    Picks(Picks),
    // reads the current value of the signal
    Read(usize),
    DeltaStep,
    TimeStep,
}

// What the order of a kind does, if the kind is known and the bytes that it does not use are zero.
#[tactic(auto, unfolding(crate::specs::Lists::performed, crate::specs::Lists::is_known))]
fn action_of(kind: usize, argument: usize, count: usize) -> Option<Action>
    ensures { (M : Model) (c : Configuration) → performed M (order kind argument count) c ≡ done_by M result c }
{
    match (kind, argument, count) {
        (1, process, 0) => Some(Action::Picks(Picks::One(process))),
        (3, 0, count) => Some(Action::Picks(Picks::Settle(count))),
        (4, signal, 0) => Some(Action::Read(signal)),
        (5, 0, set) => Some(Action::Picks(Picks::Set(set))),
        (6, 0, 0) => Some(Action::DeltaStep),
        (7, 0, 0) => Some(Action::TimeStep),
        _ => None,
    }
}

// Plays the orders, and writes each answer into its own part of the buffer.
pub fn play(c: Config, program: &Program, orders: &[u8], answers: &mut [u8]) -> Config
    requires valid { Valid (model_of_program program.now) c }
    requires answers_len { length answers.old ≡ 16 * (length orders.now / 4) }
    ensures played_to { PlayedTo (model_of_program program.now) orders.now (view_of c) (view_of result) answers.new }
    ensures valid_2 { Valid (model_of_program program.now) result }
{
    let mut at = c;
    for i in 0..orders.len() / 4 {
        let from = 4 * i;
        let kind = byte(orders, from);
        let argument = byte(orders, from + 1);
        let count = word(orders, from + 2);
        let to = 16 * i;
        let mut answer = Answer::refused(11);
        match action_of(kind, argument, count) {
            None => {}
            Some(Action::Picks(which)) => {
                let r = at.picks(program, which);
                at = r.config;
                answer = r.answer;
            }
            Some(Action::Read(signal)) => {
                let r = at.read(signal);
                at = r.config;
                answer = r.answer;
            }
            Some(Action::DeltaStep) => {
                let r = at.delta_step(program);
                at = r.config;
                answer = r.answer;
            }
            Some(Action::TimeStep) => {
                let r = at.time_step(program);
                at = r.config;
                answer = r.answer;
            }
        }
        put_answer(&mut answers[to..to + 16], answer, at.time);
    }
    at
}
