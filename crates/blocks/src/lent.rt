// The records of a model, each read from its own part of the bytes.
ghost use Rattle.std.specs.Prelude.{◌≡◌, ◌<◌, length, get_or};
ghost use Rattle.blocks.specs.Blocks.{part_at, starts_of, total_of};
ghost use Rattle.blocks.specs.Records.{signal_at, variable_at, process_at, driver_at, node_at, statement_at, row_at};
ghost use Rattle.blocks.specs.Index.{section_of, Starts};
ghost use Rattle.blocks.specs.Lent.{model_in};

use crate::blocks::totals;
use crate::index::{
    DRIVERS_AT, Index, NODES_AT, PROCESSES_AT, ROWS_AT, Records, SIGNALS_AT, STATEMENTS_AT,
    VARIABLES_AT,
};
use crate::records::{
    DriverRecord, NodeRecord, ProcessRecord, RowRecord, SignalRecord, StatementRecord,
    VariableRecord, read_driver, read_node, read_process, read_row, read_signal, read_statement,
    read_variable,
};

impl<'a> Records<'a> {
    // The records of any bytes whose index says where each begins: the totals are asked of nobody.
    pub fn new(bytes: &'a [u8], index: &'a Index) -> Records<'a>
        requires { Starts bytes.now index.now }
        ensures lent { (result.bytes.now ≡ bytes.now) × (result.index.now ≡ index.now) }
    {
        Records {
            bytes: bytes,
            index: index,
            totals: totals(bytes),
        }
    }

    // The 12 bytes of record n of a kind, whose starts stand in the index from `section` on.
    fn part(&self, kind: usize, section: usize, n: usize) -> &[u8]
        requires section_value { section ≡ section_of kind }
        requires n_bound { n < total_of kind self.now.bytes.now }
        ensures part { result.now ≡ part_at self.now.bytes.now (get_or (starts_of kind self.now.bytes.now) n 0) }
        ensures len { length result.now ≡ 12 }
    {
        let start = usize::from(self.index[section + n]);
        &self.bytes[start..start + 12]
    }

    pub fn signal(&self, n: usize) -> SignalRecord
        requires { n < length (model_in self.now).signals }
        ensures { result ≡ signal_at (model_in self.now) n }
    {
        read_signal(self.part(1, SIGNALS_AT, n))
    }

    pub fn variable(&self, n: usize) -> VariableRecord
        requires { n < length (model_in self.now).variables }
        ensures { result ≡ variable_at (model_in self.now) n }
    {
        read_variable(self.part(2, VARIABLES_AT, n))
    }

    pub fn process(&self, n: usize) -> ProcessRecord
        requires { n < length (model_in self.now).processes }
        ensures { result ≡ process_at (model_in self.now) n }
    {
        read_process(self.part(3, PROCESSES_AT, n))
    }

    pub fn driver(&self, n: usize) -> DriverRecord
        requires { n < length (model_in self.now).drivers }
        ensures { result ≡ driver_at (model_in self.now) n }
    {
        read_driver(self.part(4, DRIVERS_AT, n))
    }

    pub fn node(&self, n: usize) -> NodeRecord
        requires { n < length (model_in self.now).nodes }
        ensures { result ≡ node_at (model_in self.now) n }
    {
        read_node(self.part(5, NODES_AT, n))
    }

    pub fn statement(&self, n: usize) -> StatementRecord
        requires { n < length (model_in self.now).statements }
        ensures { result ≡ statement_at (model_in self.now) n }
    {
        read_statement(self.part(6, STATEMENTS_AT, n))
    }

    pub fn row(&self, n: usize) -> RowRecord
        requires { n < length (model_in self.now).rows }
        ensures { result ≡ row_at (model_in self.now) n }
    {
        read_row(self.part(7, ROWS_AT, n))
    }
}
