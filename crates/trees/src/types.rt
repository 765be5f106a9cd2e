// Rule 7: the type of each node, and the types that statements ask for.
ghost use Rattle.std.specs.Prelude.{◌≡◌, true, ◌||◌, ◌+◌, ◌≤◌, ◌<◌, eqb, leb, ltb, length, get_or};
ghost use Rattle.base.specs.Cases.{◌∣◌, ◌⇒◌};
ghost use Rattle.blocks.specs.Records.{model_of, signal_at, variable_at, statement_at};
ghost use Rattle.blocks.specs.Index.{types_at, index_size, Starts};
ghost use Rattle.blocks.specs.Totals.{TotalsOf};
ghost use Rattle.blocks.specs.Lent.{model_in};
ghost use Rattle.fields.specs.Fields.{absent, is_node_or_absent, node_ok, fields_ok};
ghost use Rattle.trees.specs.Trees.{mistyped, type_by, type_of, statement_typed, types_ok};
ghost use Rattle.trees.specs.Types.{TypesBelow, TypesKnown, TypesIn};

use blocks::index::{Index, Records, TYPES_AT, Totals, entry};
use blocks::records::NodeRecord;
use fields::ABSENT;

// Stays: the types are numbers, since they are bytes of a record, any byte until rule 5 has judged it, and entries of the index.
pub const INTEGER: usize = 0;

pub const LOGIC: usize = 1;

pub const BOOLEAN: usize = 2;

const MISTYPED: usize = 3;

// The type of node n.
pub fn type_at(records: &Records, n: usize) -> usize
    requires types { TypesKnown records.now }
    requires n_in_bounds { n < length (model_in records.now).nodes }
    ensures { result ≡ type_of (model_in records.now) n }
{
    entry(records.index, TYPES_AT + n)
}

pub fn signal_type(records: &Records, n: usize) -> usize
    requires { n < length (model_in records.now).signals }
    ensures { result ≡ (signal_at (model_in records.now) n).ty }
{
    records.signal(n).ty
}

// The type of a node, p and q being those of its operands.
fn type_by(records: &Records, d: NodeRecord, p: usize, q: usize) -> usize
    requires { node_ok (model_in records.now) d ≡ true }
    ensures { result ≡ type_by (model_in records.now) d p q }
{
    match d.kind {
        1 => INTEGER,
        2 => LOGIC,
        3 => records.variable(d.a).ty,
        4 | 5 => signal_type(records, d.a),
        6 => if (p == LOGIC) | (p == BOOLEAN) {
            p
        } else {
            MISTYPED
        },
        7..=9 => if (p == q) & ((p == LOGIC) | (p == BOOLEAN)) {
            p
        } else {
            MISTYPED
        },
        10 => if p == INTEGER { INTEGER } else { MISTYPED },
        13 => if (p == q) & ((p == INTEGER) | (p == LOGIC)) {
            BOOLEAN
        } else {
            MISTYPED
        },
        14 => if (p == INTEGER) & (q == INTEGER) {
            BOOLEAN
        } else {
            MISTYPED
        },
        11..=18 => if (p == INTEGER) & (q == INTEGER) {
            INTEGER
        } else {
            MISTYPED
        },
        _ => MISTYPED,
    }
}

// The type of operand a of node n, the types of the nodes below n being in the index.
fn operand_type(index: &Index, n: usize, a: usize) -> usize
    requires { n ≤ 400 }
    ensures { result ≡ (ltb a n ⇒ get_or index.now (types_at + a) 0 ∣ mistyped) }
{
    if a < n {
        entry(index, TYPES_AT + a)
    } else {
        MISTYPED
    }
}

// The type of node n, the types of the nodes below n being in the index.
fn next_type(records: &Records, n: usize) -> usize
    requires m_value { fields_ok (model_in records.now) ≡ true }
    requires n_in_bounds { n < length (model_in records.now).nodes }
    requires types_below { TypesBelow records.now.bytes.now records.now.index.now n }
    ensures value { result ≡ type_of (model_in records.now) n }
    ensures upper_bound { result ≤ 3 }
{
    let d = records.node(n);
    let p = operand_type(records.index, n, d.a);
    let q = operand_type(records.index, n, d.b);
    type_by(records, d, p, q)
}

// Writes the type of each node into the index.
fn fill_types(m: &[u8], index: &mut Index, t: Totals)
    requires index_len { length index.old ≡ index_size }
    requires starts { Starts m.now index.old }
    requires totals_of { TotalsOf (model_of m.now) t }
    requires m_value { fields_ok (model_of m.now) ≡ true }
    ensures { TypesIn m.now index.new }
{
    for n in 0..t.nodes {
        let records = Records {
            bytes: m,
            index: &*index,
            totals: t,
        };
        let ty = next_type(&records, n);
        index[TYPES_AT + n] = ty as u16;
    }
}

// Whether node n is absent or has the type.
fn typed_or_absent(records: &Records, n: usize, ty: usize) -> bool
    requires types { TypesKnown records.now }
    requires n_value { is_node_or_absent (model_in records.now) n ≡ true }
    ensures { result ≡ (eqb n absent || eqb (type_of (model_in records.now) n) ty) }
{
    (n == ABSENT) || (type_at(records, n) == ty)
}

// Whether the nodes of statement n have the types that it asks for.
fn statement_typed(records: &Records, n: usize) -> bool
    requires types { TypesKnown records.now }
    requires m_value { fields_ok (model_in records.now) ≡ true }
    requires n_in_bounds { n < length (model_in records.now).statements }
    ensures { result ≡ statement_typed (model_in records.now) (statement_at (model_in records.now) n) }
{
    let s = records.statement(n);
    match s.kind {
        1 => type_at(records, s.b) == records.variable(s.a).ty,
        2 | 7 => (type_at(records, s.b) == signal_type(records, s.a))
            & (type_at(records, s.c) == INTEGER),
        3 => type_at(records, s.b) == BOOLEAN,
        5 => typed_or_absent(records, s.b, BOOLEAN) & typed_or_absent(records, s.c, INTEGER),
        6 => type_at(records, s.c) == INTEGER,
        _ => true,
    }
}

// 7. Whether the types agree. Writes the type of each node into the index; the entries behind the types are left open.
pub fn types_ok(m: &[u8], index: &mut Index, t: Totals) -> bool
    requires index_len { length index.old ≡ index_size }
    requires starts { Starts m.now index.old }
    requires totals_of { TotalsOf (model_of m.now) t }
    requires m_value { fields_ok (model_of m.now) ≡ true }
    ensures value { result ≡ types_ok (model_of m.now) }
    ensures types_in { TypesIn m.now index.new }
{
    fill_types(m, index, t);
    let records = Records {
        bytes: m,
        index: &*index,
        totals: t,
    };
    let nodes = (0..t.nodes).all(|n| type_at(&records, n) <= BOOLEAN);
    let statements = (0..t.statements).all(|n| statement_typed(&records, n));
    nodes & statements
}
