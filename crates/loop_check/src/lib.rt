// The check for loops without delay: the closed chain of a model's processes that is asked for, or none.
#![tactic(auto)]

ghost use Rattle.loop_check.specs.Check.{CheckIs, LoopLaws};

use base::refusal::Refusal;
use chains::{Chain, closed_chain};
use leads::{rows, waits_later};
use model::load::load;

// What the check gives of an accepted model: the chain if there is one, and whether every wait of the model has no c or a constant c above 0.
#[derive(Drop)]
pub struct Checked {
    pub chain: Option<Chain>,
    pub later: bool,
}

// Checks a model, any bytes.
pub fn check(model: &[u8]) -> Result<Checked, Refusal>
    ensures check_is { CheckIs model.now result }
    ensures loop_laws { LoopLaws }
{
    let loaded = load(model)?;
    let records = loaded.records(model);
    let relation = rows(&records);
    let chain = closed_chain(&relation, loaded.totals.processes);
    let later = waits_later(&records);
    Ok(Checked { chain, later })
}
