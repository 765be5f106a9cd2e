// A model's pair table, the standard's or its own: written into the index, and rules 24 and 25.
#![tactic(auto)]

ghost use Rattle.std.specs.Prelude.{◌≡◌, ◌<◌, length, get_or};
ghost use Rattle.base.specs.Rules.{first_failing};
ghost use Rattle.base.specs.Refusals.{told};
ghost use Rattle.values.specs.Resolve.{entries, entry_of};
ghost use Rattle.blocks.specs.Records.{model_of, row_at};
ghost use Rattle.blocks.specs.Index.{index_size, table_at, placed, Starts};
ghost use Rattle.blocks.specs.Totals.{TotalsOf};
ghost use Rattle.blocks.specs.Lent.{model_in};
ghost use Rattle.tables.specs.Tables.{rows_of, table_of, table_rules, TableIn};

use base::refusal::Refusal;
use blocks::index::{Index, Records, TABLE_AT, Totals};
use values::ENTRIES;

// The code of a model's own table in column i of row n.
fn own_code(records: &Records, n: usize, i: usize) -> u16
    requires n_in_bounds { n < length (model_in records.now).rows }
    requires i_bound { i < 9 }
    ensures { result ≡ get_or (row_at (model_in records.now) n).codes i 0 }
{
    u16::from(records.row(n).codes[i])
}

// Entry n of the model's table.
fn table_entry(records: &Records, n: usize) -> u16
    requires n_lt_entries { n < entries }
    ensures { result ≡ entry_of (rows_of (model_in records.now)) n }
{
    if records.totals.rows == 0 {
        values::standard(n)
    } else {
        own_code(records, n / 9, n % 9)
    }
}

// Writes the model's table into the index.
pub fn put_table(m: &[u8], index: &mut Index, t: Totals)
    requires index_len { length index.old ≡ index_size }
    requires starts { Starts m.now index.old }
    requires totals_of { TotalsOf (model_of m.now) t }
    ensures { index.new ≡ placed index.old table_at (table_of (model_of m.now)) }
{
    for n in 0..ENTRIES {
        let records = Records {
            bytes: m,
            index: &*index,
            totals: t,
        };
        let x = table_entry(&records, n);
        index[TABLE_AT + n] = x;
    }
}

// The first of the rules 24 and 25 that fails. The standard's table passes both.
// Stays: bytes, index and totals apart, since `Records` asks for the places of all records, and a table in the index is enough here.
pub fn check_table(m: &[u8], index: &Index, t: Totals) -> Result<(), Refusal>
    requires table_in { TableIn m.now index.now }
    requires totals_of { TotalsOf (model_of m.now) t }
    ensures { told result ≡ first_failing (table_rules (model_of m.now)) }
{
    if t.rows == 0 {
        return Ok(());
    }
    let whole = &index[..];
    let table = &whole[TABLE_AT..TABLE_AT + ENTRIES];
    if !values::symmetric(table) {
        return Err(Refusal::NotSymmetric);
    }
    if !values::associative(table) {
        return Err(Refusal::NotAssociative);
    }
    Ok(())
}
