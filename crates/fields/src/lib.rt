// Rule 5: the fields of each record, the spans of the processes, and the process of a statement.
#![tactic(auto)]

ghost use Rattle.std.specs.Prelude.{◌≡◌, ℕ, ◌+◌, ◌^◌, ◌≤◌, ◌<◌, ltb, length};
ghost use Rattle.blocks.specs.Records.{model_of};
ghost use Rattle.blocks.specs.Index.{Starts};
ghost use Rattle.blocks.specs.Totals.{TotalsOf};
ghost use Rattle.blocks.specs.Lent.{model_in};
ghost use Rattle.fields.specs.Fields.{value_ok, signal_ok, variable_ok, end_of, due_start, process_ok, covered, driver_ok, node_ok, owner_of, in_span, statement_ok, row_ok, fields_ok};

use blocks::index::Records;
use blocks::records::{
    DriverRecord, NodeRecord, PLAIN, REGISTER, RowRecord, SignalRecord, StatementRecord,
    VariableRecord,
};

// The number that stands for an absent b or c of a wait.
// Stays: no Option, since a record's bytes have it so (`statement_of`, `is_node_or_absent`).
pub const ABSENT: usize = 65535;

// Whether 32 bits are a value of the type.
// Stays: types and kinds are numbers here, since any byte may stand in a record and this rule judges which may.
fn value_ok(ty: usize, x: u32) -> bool
    ensures { result ≡ value_ok ty x }
{
    match ty {
        0 => x != 2147483648,
        1 => x <= 8,
        2 => x <= 1,
        _ => false,
    }
}

fn signal_ok(d: SignalRecord) -> bool
    ensures { result ≡ signal_ok d }
{
    (d.ty <= 1)
        & (d.kind <= REGISTER)
        & ((d.kind == PLAIN) | (d.ty == 1))
        & value_ok(d.ty, d.start)
        & d.zeros
}

fn variable_ok(records: &Records, d: VariableRecord) -> bool
    ensures { result ≡ variable_ok (model_in records.now) d }
{
    value_ok(d.ty, d.start) & (d.process < records.totals.processes) & d.zeros
}

// Called for what it ensures: where a process starts and how many statements it has are two words, so their sum fits.
fn spans_fit(m: &[u8])
    ensures { (p : ℕ) → end_of (model_of m.now) p < 131072 }
{}

// Where process p ends: one past its last statement.
fn end_of(records: &Records, p: usize) -> usize
    requires { p < length (model_in records.now).processes }
    ensures { result ≡ end_of (model_in records.now) p }
{
    spans_fit(records.bytes);
    let d = records.process(p);
    d.first + d.count
}

// Where process p has to start.
fn due_start(records: &Records, p: usize) -> usize
    requires { p < length (model_in records.now).processes }
    ensures { result ≡ due_start (model_in records.now) p }
{
    if p == 0 { 0 } else { end_of(records, p - 1) }
}

fn process_ok(records: &Records, p: usize) -> bool
    requires { p < length (model_in records.now).processes }
    ensures { result ≡ process_ok (model_in records.now) p }
{
    let d = records.process(p);
    (d.first == due_start(records, p)) & (1 <= d.count) & d.zeros
}

// Whether the last process ends where the statements do.
fn all_covered(records: &Records) -> bool
    ensures { result ≡ covered (model_in records.now) }
{
    end_of(records, records.totals.processes - 1) == records.totals.statements
}

fn driver_ok(records: &Records, d: DriverRecord) -> bool
    ensures { result ≡ driver_ok (model_in records.now) d }
{
    (d.process < records.totals.processes) & (d.signal < records.totals.signals) & d.zeros
}

// The fields by the node's kind; the operands of kinds 6 to 18 are left to rule 6.
fn node_ok(records: &Records, d: NodeRecord) -> bool
    ensures { result ≡ node_ok (model_in records.now) d }
{
    let t = records.totals;
    match d.kind {
        1 => (d.a == 0) & (d.b == 0) & value_ok(0, d.k) & d.zeros,
        2 => (d.a == 0) & (d.b == 0) & value_ok(1, d.k) & d.zeros,
        3 => (d.a < t.variables) & (d.b == 0) & (d.k == 0) & d.zeros,
        4 => (d.a < t.signals) & (d.b == 0) & (d.k == 0) & d.zeros,
        5 => (d.a < t.signals) & (d.b == 0) & (d.k <= 31) & d.zeros,
        6 | 10 => (d.b == 0) & (d.k == 0) & d.zeros,
        7..=9 | 11..=18 => (d.k == 0) & d.zeros,
        _ => false,
    }
}

// The process of statement n: the first that ends past it, or the number of processes where none does.
pub fn owner_of(records: &Records, n: usize) -> usize
    ensures { result ≡ owner_of (model_in records.now) n }
{
    (0..records.totals.processes)
        .find(|p| n < end_of(records, *p))
        .unwrap_or(records.totals.processes)
}

// Whether statement a belongs to process p.
fn in_span(records: &Records, p: usize, a: usize) -> bool
    requires { p < length (model_in records.now).processes }
    ensures { result ≡ in_span (model_in records.now) p a }
{
    (records.process(p).first <= a) & (a < end_of(records, p))
}

// Whether statement a belongs to the process of statement n.
fn jump_ok(records: &Records, n: usize, a: usize) -> bool
    ensures { result ≡ in_span (model_in records.now) (owner_of (model_in records.now) n) a }
{
    let p = owner_of(records, n);
    if p < records.totals.processes {
        in_span(records, p, a)
    } else {
        false
    }
}

// Whether a set of signals has none past the last.
fn set_ok(set: u32, signals: usize) -> bool
    requires { signals ≤ 32 }
    ensures { result ≡ ltb set (2 ^ signals) }
{
    u64::from(set) < (1u64 << signals)
}

// The fields by the statement's kind, n being its number; b and c of a wait may be absent.
fn statement_ok(records: &Records, n: usize, s: StatementRecord) -> bool
    ensures { result ≡ statement_ok (model_in records.now) n s }
{
    let t = records.totals;
    match s.kind {
        0 => (s.a == 0) & (s.b == 0) & (s.c == 0) & (s.set == 0) & s.zeros,
        1 => (s.a < t.variables) & (s.b < t.nodes) & (s.c == 0) & (s.set == 0) & s.zeros,
        2 | 7 => (s.a < t.signals) & (s.b < t.nodes) & (s.c < t.nodes) & (s.set == 0) & s.zeros,
        3 => jump_ok(records, n, s.a) & (s.b < t.nodes) & (s.c == 0) & (s.set == 0) & s.zeros,
        4 => jump_ok(records, n, s.a) & (s.b == 0) & (s.c == 0) & (s.set == 0) & s.zeros,
        5 => {
            (s.a == 0)
                & ((s.b < t.nodes) | (s.b == ABSENT))
                & ((s.c < t.nodes) | (s.c == ABSENT))
                & set_ok(s.set, t.signals)
                & s.zeros
        }
        6 => (s.a < t.signals) & (s.b == 0) & (s.c < t.nodes) & (s.set == 0) & s.zeros,
        _ => false,
    }
}

fn row_ok(d: RowRecord) -> bool
    ensures { result ≡ row_ok d }
{
    d.codes.iter().all(|code| *code <= 8) & d.zeros
}

// Rule 5 over the whole model.
pub fn fields_ok(records: &Records) -> bool
    ensures { result ≡ fields_ok (model_in records.now) }
{
    let t = records.totals;
    (0..t.signals).all(|n| signal_ok(records.signal(n)))
        & (0..t.variables).all(|n| variable_ok(records, records.variable(n)))
        & (0..t.processes).all(|p| process_ok(records, p))
        & all_covered(records)
        & (0..t.drivers).all(|n| driver_ok(records, records.driver(n)))
        & (0..t.nodes).all(|n| node_ok(records, records.node(n)))
        & (0..t.statements).all(|n| statement_ok(records, n, records.statement(n)))
        & (0..t.rows).all(|n| row_ok(records.row(n)))
}
