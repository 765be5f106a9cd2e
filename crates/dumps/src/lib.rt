// The dump of a run for a wave viewer: the session of a model and orders, the settled values of each time, and their text.
#![tactic(auto)]

ghost use Rattle.std.specs.Prelude.{◌≡◌, ◌≤◌, ◌<◌, length, replicate};
ghost use Rattle.base.specs.Below.{list_below};
ghost use Rattle.cycle.specs.Arrays.{EntriesAre};
ghost use Rattle.cycle.specs.View.{Valid, view_of};
ghost use Rattle.expressions.specs.Lent.{model_of_program};
ghost use Rattle.session.specs.Lists.{orders_of};
ghost use Rattle.text.specs.Text.{RoomsSuffice, Prints};
ghost use Rattle.vcd.specs.Writing.{row_of};
ghost use Rattle.dumps.specs.Dumps.{DumpIs, ReadsBack, TimesOfRuns, dump_room, RoomHolds, print_of};
ghost use Rattle.dumps.specs.Run.{settled_in, signal_type, current_at, RowPut, Traced};

use base::refusal::Refusal;
use blocks::index::Records;
use cycle::config::Config;
use expressions::program::Program;
use model::load::load;
use session::orders_ok;
use session::play::play;
use text::put_refusal;
use vcd::put_dump;

// How many bytes the program has room for.
const DUMP_ROOM: usize = 2406375;

// The types of the signals.
fn signal_types(program: &Program) -> [usize; 32]
    ensures { EntriesAre (signal_type (model_of_program program.now)) program.now.records.totals.signals result }
{
    let mut r = [0usize; 32];
    for i in 0..program.records.totals.signals {
        let s = program.records.signal(i);
        r[i] = s.ty;
    }
    r
}

// The current values of the first n signals, over the front of a row.
fn put_values(signals: &[u32; 1056], n: usize, row: &mut [u32])
    requires n_bound { n ≤ 32 }
    requires row_len { length row.old ≡ 32 }
    ensures { EntriesAre (current_at signals.now) n row.new }
{
    for s in 0..n {
        row[s] = signals[32 * s];
    }
}

// Row k: a time, and the current values of the first n signals.
fn put_row(
    time: u64,
    signals: &[u32; 1056],
    n: usize,
    k: usize,
    times: &mut [u64],
    values: &mut [u32],
)
    requires n_bound { n ≤ 32 }
    requires k_bound { k < 2049 }
    requires times_len { length times.old ≡ 2049 }
    requires values_len { length values.old ≡ 65568 }
    ensures { RowPut (record { time = time; values = list_below (current_at signals.now) n }) k (row_of n times.old values.old) (row_of n times.new values.new) }
{
    let row = 32 * k;
    times[k] = time;
    put_values(signals, n, &mut values[row..row + 32]);
}

// Plays the orders one by one, and keeps a row of each time. Its settled values are those of the configuration that a time step leaves;
// a time step alters none of them, so they are read behind it. Those of the last time are read at the end. Answers how many rows.
fn trace(
    c: Config,
    program: &Program,
    orders: &[u8],
    times: &mut [u64],
    values: &mut [u32],
) -> usize
    requires valid { Valid (model_of_program program.now) c }
    requires orders_len_bound { length orders.now ≤ 16384 }
    requires times_len { length times.old ≡ 2049 }
    requires values_len { length values.old ≡ 65568 }
    ensures { Traced (model_of_program program.now) (settled_in (model_of_program program.now) (orders_of orders.now) (view_of c)) times.new values.new result }
{
    let n = orders.len() / 4;
    let mut at = c;
    let mut k = 0;
    for i in 0..n {
        let from = 4 * i;
        let time = at.time;
        let mut answer = [0u8; 16];
        at = play(at, program, &orders[from..from + 4], &mut answer);
        if at.time != time {
            put_row(time, &at.signals, at.nsignals, k, times, values);
            k += 1;
        }
    }
    put_row(at.time, &at.signals, at.nsignals, k, times, values);
    k + 1
}

// Writes the dump of the run of a model and orders, any bytes, into the front of the buffer, and answers how many bytes that is. A refused one
// writes nothing.
pub fn dump(model: &[u8], orders: &[u8], out: &mut [u8]) -> Result<usize, Refusal>
    ensures dump_is { DumpIs model.now orders.now out.old out.new result }
    ensures reads_back { ReadsBack }
    ensures times_of_runs { TimesOfRuns }
    ensures room_holds { RoomHolds model.now orders.now }
{
    let loaded = load(model)?;
    if !orders_ok(orders) {
        return Err(Refusal::OrdersLength);
    }
    let program = Program {
        records: Records {
            bytes: model,
            index: &loaded.index,
            totals: loaded.totals,
        },
    };
    let n = loaded.totals.signals;
    let types = signal_types(&program);
    let c = Config::first(&program);
    let mut times = [0u64; 2049];
    let mut values = [0u32; 65568];
    let count = trace(c, &program, orders, &mut times, &mut values);
    // Into no room the dump is only counted.
    let mut none = [0u8; 1];
    let length = put_dump(&types[..n], &times[..count], &values, &mut none);
    if length > out.len() {
        return Err(Refusal::NoRoom);
    }
    put_dump(&types[..n], &times[..count], &values, out);
    Ok(length)
}

// The program's room for the dump.
pub fn dump_room() -> [u8; DUMP_ROOM]
    ensures { result ≡ replicate dump_room 0 }
{
    [0; DUMP_ROOM]
}

// Writes what the program prints for a model and orders, any bytes, and answers how many bytes that is: the dump, or the number of a refused run.
pub fn print(model: &[u8], orders: &[u8], out: &mut [u8; DUMP_ROOM]) -> usize
    ensures prints { Prints (print_of model.now orders.now) out.new result }
    ensures rooms_suffice { RoomsSuffice print_of }
{
    match dump(model, orders, out) {
        Ok(length) => length,
        Err(refusal) => put_refusal(refusal.number(), out),
    }
}
