// The seven kinds of records, as their 12 bytes name them. Signed fields are held as their 32 bits; `zeros` says that the bytes
// which a record does not name are zero.
ghost use Rattle.std.specs.Prelude.{◌≡◌, ◌+◌, ◌≤◌, ◌<◌, length};
ghost use Rattle.blocks.specs.Records.{zeros_at, signal_of, variable_of, process_of, driver_of, node_of, statement_of, row_of};

use base::{byte, long32, word};

// Kinds of a signal.
// Stays: kinds and types are numbers, since the records are read before rule 5 judges them, and `signal_of` to `row_of` name the bytes.
pub const PLAIN: usize = 0;

pub const BUS: usize = 1;

pub const REGISTER: usize = 2;

#[derive(Clone, Copy)]
pub struct SignalRecord {
    pub ty: usize,
    pub kind: usize,
    pub start: u32,
    pub zeros: bool,
}

#[derive(Clone, Copy)]
pub struct VariableRecord {
    pub ty: usize,
    pub process: usize,
    pub start: u32,
    pub zeros: bool,
}

#[derive(Clone, Copy)]
pub struct ProcessRecord {
    pub first: usize,
    pub count: usize,
    pub zeros: bool,
}

#[derive(Clone, Copy)]
pub struct DriverRecord {
    pub process: usize,
    pub signal: usize,
    pub zeros: bool,
}

#[derive(Clone, Copy)]
pub struct NodeRecord {
    pub kind: usize,
    pub a: usize,
    pub b: usize,
    pub k: u32,
    pub zeros: bool,
}

#[derive(Clone, Copy)]
pub struct StatementRecord {
    pub kind: usize,
    pub a: usize,
    pub b: usize,
    pub c: usize,
    pub set: u32,
    pub zeros: bool,
}

// A row of the model's own pair table.
#[derive(Clone, Copy)]
pub struct RowRecord {
    pub codes: [u8; 9],
    pub zeros: bool,
}

// Whether the n bytes from i on are zero.
fn zeros(r: &[u8], i: usize, n: usize) -> bool
    requires { i + n ≤ length r.now }
    ensures { result ≡ zeros_at r.now i n }
{
    (0..n).all(|j| byte(r, i + j) == 0)
}

// A signal's record from its 12 bytes.
#[tactic(auto, unfolding(crate::specs::Records::signal_of))]
pub(crate) fn read_signal(r: &[u8]) -> SignalRecord
    requires { length r.now ≡ 12 }
    ensures { result ≡ signal_of r.now }
{
    SignalRecord {
        ty: byte(r, 0),
        kind: byte(r, 1),
        start: long32(r, 4),
        zeros: zeros(r, 2, 2) & zeros(r, 8, 4),
    }
}

#[tactic(auto, unfolding(crate::specs::Records::variable_of))]
pub(crate) fn read_variable(r: &[u8]) -> VariableRecord
    requires { length r.now ≡ 12 }
    ensures { result ≡ variable_of r.now }
{
    VariableRecord {
        ty: byte(r, 0),
        process: byte(r, 1),
        start: long32(r, 4),
        zeros: zeros(r, 2, 2) & zeros(r, 8, 4),
    }
}

#[tactic(auto, unfolding(crate::specs::Records::process_of))]
pub(crate) fn read_process(r: &[u8]) -> ProcessRecord
    requires { length r.now ≡ 12 }
    ensures { result ≡ process_of r.now }
{
    ProcessRecord {
        first: word(r, 0),
        count: word(r, 2),
        zeros: zeros(r, 4, 8),
    }
}

#[tactic(auto, unfolding(crate::specs::Records::driver_of))]
pub(crate) fn read_driver(r: &[u8]) -> DriverRecord
    requires { length r.now ≡ 12 }
    ensures { result ≡ driver_of r.now }
{
    DriverRecord {
        process: byte(r, 0),
        signal: byte(r, 1),
        zeros: zeros(r, 2, 10),
    }
}

#[tactic(auto, unfolding(crate::specs::Records::node_of))]
pub(crate) fn read_node(r: &[u8]) -> NodeRecord
    requires { length r.now ≡ 12 }
    ensures { result ≡ node_of r.now }
{
    NodeRecord {
        kind: byte(r, 0),
        a: word(r, 2),
        b: word(r, 4),
        k: long32(r, 8),
        zeros: zeros(r, 1, 1) & zeros(r, 6, 2),
    }
}

#[tactic(auto, unfolding(crate::specs::Records::statement_of))]
pub(crate) fn read_statement(r: &[u8]) -> StatementRecord
    requires { length r.now ≡ 12 }
    ensures { result ≡ statement_of r.now }
{
    StatementRecord {
        kind: byte(r, 0),
        a: word(r, 2),
        b: word(r, 4),
        c: word(r, 6),
        set: long32(r, 8),
        zeros: zeros(r, 1, 1),
    }
}

pub(crate) fn read_row(r: &[u8]) -> RowRecord
    requires { length r.now ≡ 12 }
    ensures { result ≡ row_of r.now }
{
    RowRecord {
        codes: [r[0], r[1], r[2], r[3], r[4], r[5], r[6], r[7], r[8]],
        zeros: zeros(r, 9, 3),
    }
}
