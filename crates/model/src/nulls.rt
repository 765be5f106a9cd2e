// Rule 20: null transactions on plain signals.
ghost use Rattle.std.specs.Prelude.{◌≡◌, true, ◌<◌, length};
ghost use Rattle.blocks.specs.Records.{statement_at};
ghost use Rattle.blocks.specs.Lent.{model_in};
ghost use Rattle.fields.specs.Fields.{fields_ok};
ghost use Rattle.model.specs.Nulls.{null_ok, nulls_ok};

use blocks::index::Records;
use blocks::records::PLAIN;

// Whether statement n is no null assignment to a plain signal.
fn null_ok(records: &Records, n: usize) -> bool
    requires fields { fields_ok (model_in records.now) ≡ true }
    requires n_in_bounds { n < length (model_in records.now).statements }
    ensures { result ≡ null_ok (model_in records.now) (statement_at (model_in records.now) n) }
{
    let s = records.statement(n);
    if s.kind != 6 {
        return true;
    }
    records.signal(s.a).kind != PLAIN
}

// 20. Whether no statement assigns null to a plain signal.
pub(crate) fn nulls_ok(records: &Records) -> bool
    requires fields { fields_ok (model_in records.now) ≡ true }
    ensures { result ≡ nulls_ok (model_in records.now) }
{
    (0..records.totals.statements).all(|n| null_ok(records, n))
}
