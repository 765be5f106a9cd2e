// The resolution of a signal over its drivers.
ghost use Rattle.std.specs.Prelude.{◌≡◌, ◌<◌, length};
ghost use Rattle.blocks.specs.Records.{signal_at};
ghost use Rattle.rules.specs.Configuration.{resolved_or};
ghost use Rattle.rules.specs.Steps.{undriven};
ghost use Rattle.expressions.specs.Lent.{model_of_program};
ghost use Rattle.steps.specs.Entries.{driving_in};

use blocks::index::TABLE_AT;
use blocks::records::BUS;
use expressions::program::Program;
use values::ENTRIES;
use waveforms::driver::NULL;

// The resolution of the current values of the drivers of signal s that are on, by the table that the index holds, or other where there are
// none.
pub fn resolved(
    program: &Program,
    currents: &[u32; 64],
    ndrivers: usize,
    s: usize,
    other: u32,
) -> u32
    requires { ndrivers ≡ length (model_of_program program.now).drivers }
    ensures { result ≡ resolved_or (model_of_program program.now) other (driving_in (model_of_program program.now) currents.now s ndrivers) }
{
    // Stays: an array and a count, since there is no heap.
    let mut driving = [0u32; 64];
    let mut n = 0;
    for k in 0..ndrivers {
        let d = program.records.driver(k);
        let x = currents[k];
        if (d.signal == s) & (x != NULL) {
            driving[n] = x;
            n += 1;
        }
    }
    if n == 0 {
        return other;
    }
    let index = program.records.index;
    let whole = &index[..];
    let table = &whole[TABLE_AT..TABLE_AT + ENTRIES];
    values::resolve_by(table, &driving[..n])
}

// What signal s becomes where all its drivers are null: a bus Z, and any other keeps its value.
pub(crate) fn undriven(program: &Program, s: usize, value: u32) -> u32
    requires { s < length (model_of_program program.now).signals }
    ensures { result ≡ undriven (signal_at (model_of_program program.now) s) value }
{
    let d = program.records.signal(s);
    if d.kind == BUS { values::Z } else { value }
}
