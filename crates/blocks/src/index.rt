// A loaded model's index, and its records, each read from its own part of the bytes.
ghost use Rattle.std.specs.Prelude.{◌≡◌, ◌+◌, ◌<◌, length, get_or};
ghost use Rattle.blocks.specs.Records.{model_of};
ghost use Rattle.blocks.specs.Index.{index_size, Starts};
ghost use Rattle.blocks.specs.Totals.{TotalsOf};

// How many entries the index has, and where those of each kind of record, the types of the nodes, the drivers of the statements and the
// pair table begin (specs/Index).
pub const INDEX_SIZE: usize = 1466;

pub const SIGNALS_AT: usize = 0;

pub const VARIABLES_AT: usize = 32;

pub const PROCESSES_AT: usize = 96;

pub const DRIVERS_AT: usize = 112;

pub const NODES_AT: usize = 176;

pub const STATEMENTS_AT: usize = 576;

pub const ROWS_AT: usize = 776;

pub const TYPES_AT: usize = 785;

pub const ASSIGNMENTS_AT: usize = 1185;

pub const TABLE_AT: usize = 1385;

pub type Index = [u16; INDEX_SIZE];

// How many records of each kind a model has.
#[derive(Clone, Copy)]
pub struct Totals {
    pub signals: usize,
    pub variables: usize,
    pub processes: usize,
    pub drivers: usize,
    pub nodes: usize,
    pub statements: usize,
    pub rows: usize,
}

// A model's bytes, the index that says where each record begins, and how many records of each kind there are.
#[derive(Clone, Copy)]
pub struct Records<'a> {
    pub bytes: &'a [u8],
    pub index: &'a Index,
    pub totals: Totals,
    ghost starts: { Starts bytes.now index.now },
    ghost totals_of: { TotalsOf (model_of bytes.now) totals },
}

// Entry n of the index.
pub fn entry(index: &Index, n: usize) -> usize
    requires { n < index_size }
    ensures { result ≡ get_or index.now n 0 }
{
    usize::from(index[n])
}
