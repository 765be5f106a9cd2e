// Rule 8: drivers, and the processes that variables belong to.
ghost use Rattle.std.specs.Prelude.{◌≡◌, true, ◌&&◌, ◌||◌, ◌≤◌, ◌<◌, eqb, length};
ghost use Rattle.base.specs.Below.{all_below};
ghost use Rattle.blocks.specs.Records.{model_of, statement_at};
ghost use Rattle.blocks.specs.Index.{Starts};
ghost use Rattle.blocks.specs.Totals.{TotalsOf};
ghost use Rattle.blocks.specs.Lent.{model_in};
ghost use Rattle.fields.specs.Fields.{absent, is_node_or_absent, owner_of, fields_ok};
ghost use Rattle.trees.specs.Trees.{trees_ok};
ghost use Rattle.trees.specs.Types.{TypesIn};
ghost use Rattle.model.specs.Owners.{pair_below, drivers_rise, drivers_of, single_ok, driver_for, reads_own, statement_owned, owners_ok};
ghost use Rattle.model.specs.Index.{DriversBelow, DriversKnown, DriversIn};

use blocks::index::{ASSIGNMENTS_AT, Index, Records, Totals, entry};
use blocks::records::DriverRecord;
use fields::{ABSENT, owner_of};
use trees::trees::operands_of;
use trees::types::LOGIC;

// Whether the first driver's pair is below the second's: by process, then by signal.
fn pair_below(d: DriverRecord, e: DriverRecord) -> bool
    ensures { result ≡ pair_below d e }
{
    (d.process < e.process) | ((d.process == e.process) & (d.signal < e.signal))
}

// Whether the driver pairs strictly rise.
fn drivers_rise(records: &Records) -> bool
    ensures { result ≡ drivers_rise (model_in records.now) }
{
    (0..records.totals.drivers.saturating_sub(1)).all(|i| pair_below(
        records.driver(i),
        records.driver(i + 1),
    ))
}

// How many drivers signal s has.
fn drivers_of(records: &Records, s: usize) -> usize
    ensures { result ≡ drivers_of (model_in records.now) s }
{
    let mut n = 0;
    for i in 0..records.totals.drivers {
        n += usize::from(records.driver(i).signal == s);
    }
    n
}

// Whether signal s is logic or has at most one driver.
fn single_ok(records: &Records, s: usize) -> bool
    requires s_in_bounds { s < length (model_in records.now).signals }
    ensures { result ≡ single_ok (model_in records.now) s }
{
    (records.signal(s).ty == LOGIC) | (drivers_of(records, s) <= 1)
}

fn singles_ok(records: &Records) -> bool
    ensures { result ≡ all_below (single_ok (model_in records.now)) (length (model_in records.now).signals) }
{
    (0..records.totals.signals).all(|s| single_ok(records, s))
}

// Whether it is the driver of process p for signal s.
fn is_for(d: DriverRecord, p: usize, s: usize) -> bool
    ensures { result ≡ (eqb d.process p && eqb d.signal s) }
{
    (d.process == p) & (d.signal == s)
}

// The driver of process p for signal s, or how many drivers there are where it has none.
// Stays: no Option, since the index keeps the number (`DriversBelow`, `driver_for`).
fn driver_for(records: &Records, p: usize, s: usize) -> usize
    ensures { result ≡ driver_for (model_in records.now) p s }
{
    (0..records.totals.drivers)
        .find(|i| is_for(records.driver(*i), p, s))
        .unwrap_or(records.totals.drivers)
}

// The driver of the process of statement n for its signal, where it is a signal assignment.
fn statement_driver(records: &Records, n: usize) -> usize
    requires n_in_bounds { n < length (model_in records.now).statements }
    ensures value { result ≡ driver_for (model_in records.now) (owner_of (model_in records.now) n) (statement_at (model_in records.now) n).a }
    ensures upper_bound { result ≤ 64 }
{
    let s = records.statement(n);
    let p = owner_of(records, n);
    driver_for(records, p, s.a)
}

// The driver of statement n, a signal assignment, as the index has it.
pub fn assignment_driver(records: &Records, n: usize) -> usize
    requires drivers { DriversKnown records.now }
    requires n_in_bounds { n < length (model_in records.now).statements }
    ensures { result ≡ driver_for (model_in records.now) (owner_of (model_in records.now) n) (statement_at (model_in records.now) n).a }
{
    usize::from(records.index[ASSIGNMENTS_AT + n])
}

// Writes the driver of each statement into the index.
fn fill_drivers(m: &[u8], index: &mut Index, t: Totals)
    requires types_in { TypesIn m.now index.old }
    requires totals_of { TotalsOf (model_of m.now) t }
    ensures { DriversIn m.now index.new }
{
    for n in 0..t.statements {
        let records = Records {
            bytes: m,
            index: &*index,
            totals: t,
        };
        let k = statement_driver(&records, n);
        index[ASSIGNMENTS_AT + n] = k as u16;
    }
}

// Whether node n's tree reads variables of process p alone. Trees have at most 64 nodes, so there are at most 64 calls.
fn reads_own(records: &Records, n: usize, p: usize) -> bool
    requires fields { fields_ok (model_in records.now) ≡ true }
    requires trees { trees_ok (model_in records.now) ≡ true }
    requires n_in_bounds { n < length (model_in records.now).nodes }
    ensures { result ≡ reads_own (model_in records.now) p n }
{
    let d = records.node(n);
    if d.kind == 3 {
        return records.variable(d.a).process == p;
    }
    match operands_of(d.kind) {
        0 => true,
        1 => reads_own(records, d.a, p),
        _ => reads_own(records, d.a, p) & reads_own(records, d.b, p),
    }
}

// Whether node n is absent or reads variables of process p alone.
fn own_or_absent(records: &Records, n: usize, p: usize) -> bool
    requires fields { fields_ok (model_in records.now) ≡ true }
    requires trees { trees_ok (model_in records.now) ≡ true }
    requires n_value { is_node_or_absent (model_in records.now) n ≡ true }
    ensures { result ≡ (eqb n absent || reads_own (model_in records.now) p n) }
{
    if n == ABSENT {
        true
    } else {
        reads_own(records, n, p)
    }
}

// Whether statement n has its driver, and assigns and reads variables of its process alone.
fn statement_owned(records: &Records, n: usize) -> bool
    requires drivers { DriversKnown records.now }
    requires fields { fields_ok (model_in records.now) ≡ true }
    requires trees { trees_ok (model_in records.now) ≡ true }
    requires n_in_bounds { n < length (model_in records.now).statements }
    ensures { result ≡ statement_owned (model_in records.now) (owner_of (model_in records.now) n) (statement_at (model_in records.now) n) }
{
    let s = records.statement(n);
    let p = owner_of(records, n);
    match s.kind {
        1 => (records.variable(s.a).process == p) & reads_own(records, s.b, p),
        2 | 7 => (assignment_driver(records, n) < records.totals.drivers)
            & reads_own(records, s.b, p)
            & reads_own(records, s.c, p),
        3 => reads_own(records, s.b, p),
        5 => own_or_absent(records, s.b, p) & own_or_absent(records, s.c, p),
        6 => (assignment_driver(records, n) < records.totals.drivers) & reads_own(records, s.c, p),
        _ => true,
    }
}

fn statements_owned(records: &Records) -> bool
    requires drivers { DriversKnown records.now }
    requires fields { fields_ok (model_in records.now) ≡ true }
    requires trees { trees_ok (model_in records.now) ≡ true }
    ensures { result ≡ all_below (λ n. statement_owned (model_in records.now) (owner_of (model_in records.now) n) (statement_at (model_in records.now) n)) (length (model_in records.now).statements) }
{
    (0..records.totals.statements).all(|n| statement_owned(records, n))
}

// 8. Whether drivers and variables have their processes. Writes the driver of each signal assignment into the index.
pub(crate) fn owners_ok(m: &[u8], index: &mut Index, t: Totals) -> bool
    requires types_in { TypesIn m.now index.old }
    requires totals_of { TotalsOf (model_of m.now) t }
    requires fields { fields_ok (model_of m.now) ≡ true }
    requires trees { trees_ok (model_of m.now) ≡ true }
    ensures value { result ≡ owners_ok (model_of m.now) }
    ensures drivers_in { DriversIn m.now index.new }
{
    fill_drivers(m, index, t);
    let records = Records {
        bytes: m,
        index: &*index,
        totals: t,
    };
    let rise = drivers_rise(&records);
    let single = singles_ok(&records);
    let owned = statements_owned(&records);
    rise & single & owned
}
