// What the cycle reads: an accepted model's records, and the values that variables and signals hold.
ghost use Rattle.std.specs.Prelude.{◌≡◌};
ghost use Rattle.expressions.specs.Reading.{Runs};

use blocks::index::{Index, Records};

// The records of an accepted model, with an index that says its nodes' types, its assignments' drivers and its pair table.
#[derive(Clone, Copy)]
pub struct Program<'a> {
    pub records: Records<'a>,
    ghost runs: { Runs records.bytes.now records.index.now },
}

impl<'a> Program<'a> {
    // The program of any bytes and index that the cycle can read.
    pub fn new(bytes: &'a [u8], index: &'a Index) -> Program<'a>
        requires { Runs bytes.now index.now }
        ensures lent { (result.records.bytes.now ≡ bytes.now) × (result.records.index.now ≡ index.now) }
    {
        Program {
            records: Records::new(bytes, index),
        }
    }
}

// The values of the variables, and of the signals at each moment.
#[derive(Clone, Copy)]
pub struct Readings<'a> {
    pub variables: &'a [u32; 64],
    pub signals: &'a [u32; 1056],
}
