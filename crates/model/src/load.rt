// Loading a model: the first of its rules that it breaks, or its totals and index.
ghost use Rattle.std.specs.Prelude.{◌≡◌, length};
ghost use Rattle.base.specs.Refusals.{told};
ghost use Rattle.blocks.specs.Records.{model_of};
ghost use Rattle.blocks.specs.Index.{index_size, Starts};
ghost use Rattle.blocks.specs.Totals.{TotalsOf};
ghost use Rattle.model.specs.Rules.{refusal_of};
ghost use Rattle.model.specs.Index.{Judged, LoadedOf, LoadedIs};

use crate::nulls::nulls_ok;
use crate::owners::owners_ok;
use base::refusal::Refusal;
use blocks::blocks::{check_blocks, put_index, totals};
use blocks::index::{INDEX_SIZE, Index, Records, Totals};
use fields::fields_ok;
use tables::{check_table, put_table};
use trees::trees::trees_ok;
use trees::types::types_ok;

// A loaded model's totals and index (specs/Index).
#[derive(Drop)]
pub struct Loaded {
    pub totals: Totals,
    pub index: Index,
}

impl Loaded {
    // The records of the model that was loaded.
    pub fn records<'a>(&'a self, bytes: &'a [u8]) -> Records<'a>
        requires { LoadedOf bytes.now self.now }
        ensures lent { (result.bytes.now ≡ bytes.now) × (result.index.now ≡ self.now.index) × (result.totals ≡ self.now.totals) }
    {
        Records {
            bytes: bytes,
            index: &self.index,
            totals: self.totals,
        }
    }
}

// The first rule of the records that fails (5 to 8, then 20, 24 and 25), or an index to use.
// Stays: here and in what it calls that writes, bytes, index and totals apart, since `Records` lends the index to readers alone.
fn check_records(m: &[u8], index: &mut Index, t: Totals) -> Result<(), Refusal>
    requires index_len { length index.old ≡ index_size }
    requires starts { Starts m.now index.old }
    requires totals_of { TotalsOf (model_of m.now) t }
    ensures { Judged m.now index.new result }
{
    let records = Records {
        bytes: m,
        index: &*index,
        totals: t,
    };
    if !fields_ok(&records) {
        return Err(Refusal::Fields);
    }
    if !trees_ok(&records) {
        return Err(Refusal::Trees);
    }
    if !types_ok(m, index, t) {
        return Err(Refusal::Types);
    }
    if !owners_ok(m, index, t) {
        return Err(Refusal::Owners);
    }
    let records = Records {
        bytes: m,
        index: &*index,
        totals: t,
    };
    if !nulls_ok(&records) {
        return Err(Refusal::NullOnPlain);
    }
    put_table(m, index, t);
    check_table(m, index, t)
}

// The model's totals and index, or the first rule that it breaks.
pub fn load(m: &[u8]) -> Result<Loaded, Refusal>
    ensures { LoadedIs m.now result }
{
    let t = totals(m);
    check_blocks(m, t)?;
    let mut index = [0u16; INDEX_SIZE];
    put_index(m, &mut index);
    check_records(m, &mut index, t)?;
    Ok(Loaded {
        totals: t,
        index: index,
    })
}

// The first rule that the model breaks.
pub fn judge(m: &[u8]) -> Result<(), Refusal>
    ensures { told result ≡ refusal_of m.now }
{
    load(m)?;
    Ok(())
}
