// The session layer: orders, answers, lists of orders and sessions; determinacy over whole lists.
#![tactic(auto)]

pub mod encode;
pub mod play;

ghost use Rattle.std.specs.Prelude.{◌≡◌};
ghost use Rattle.base.specs.Refusals.{number_of, told};
ghost use Rattle.base.specs.Rules.{first_failing};
ghost use Rattle.rules.specs.Configuration.{empty};
ghost use Rattle.cycle.specs.View.{view_of};
ghost use Rattle.session.specs.DelayLaws.{DelayLaws};
ghost use Rattle.session.specs.Demand3.{Determinate};
ghost use Rattle.session.specs.FaultLaws.{FaultLaws};
ghost use Rattle.session.specs.ListLaws.{ListLaws};
ghost use Rattle.session.specs.OwnTableLaws.{OwnTableLaws};
ghost use Rattle.session.specs.Sessions.{orders_ok, length_rules, SessionIs};
ghost use Rattle.session.specs.SetLaws.{SetLaws};

use crate::play::play;
use base::refusal::Refusal;
use blocks::index::Records;
use cycle::config::Config;
use expressions::program::Program;
use model::load::load;

// What a session returns: its number and its end configuration.
// Stays: no Result, since a refused session has an end configuration too, the empty one (`session_is`).
#[derive(Drop)]
pub struct Ended {
    pub number: usize,
    pub config: Config,
}

// The orders' length is a multiple of 4 up to 16,384.
pub fn orders_ok(orders: &[u8]) -> bool
    ensures { result ≡ orders_ok orders.now }
{
    let n = orders.len();
    (n % 4 == 0) & (n <= 16384)
}

// The first of the rules 9 and 10 that fails.
fn check_lengths(orders: &[u8], answers: &[u8]) -> Result<(), Refusal>
    ensures { told result ≡ first_failing (length_rules orders.now answers.now) }
{
    if !orders_ok(orders) {
        return Err(Refusal::OrdersLength);
    }
    if answers.len() != 4 * orders.len() {
        return Err(Refusal::AnswersLength);
    }
    Ok(())
}

// What a refused session returns.
fn refused(refusal: Refusal) -> Ended
    ensures number { result.number ≡ number_of refusal }
    ensures config { view_of result.config ≡ empty }
{
    Ended {
        number: refusal.number(),
        config: Config::empty(),
    }
}

// Plays the orders on the model from its first configuration, and writes the answers. A refused session returns its number and
// the empty configuration, and writes nothing.
pub fn session(model: &[u8], orders: &[u8], answers: &mut [u8]) -> Ended
    ensures session_is { SessionIs model.now orders.now answers.old answers.new result }
    ensures determinate { Determinate }
    ensures list_laws { ListLaws }
    ensures fault_laws { FaultLaws }
    ensures delay_laws { DelayLaws }
    ensures set_laws { SetLaws }
    ensures own_table_laws { OwnTableLaws }
{
    let loaded = match load(model) {
        Ok(loaded) => loaded,
        Err(refusal) => return refused(refusal),
    };
    if let Err(refusal) = check_lengths(orders, answers) {
        return refused(refusal);
    }
    // The index is moved into a place of its own, whose size keeps the configuration's copies at equal offsets in their cache lines
    // (bench/README.md).
    let index = loaded.index;
    let program = Program {
        records: Records {
            bytes: model,
            index: &index,
            totals: loaded.totals,
        },
    };
    let first = Config::first(&program);
    Ended {
        number: 0,
        config: play(first, &program, orders, answers),
    }
}
