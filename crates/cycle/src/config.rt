// The configuration, the empty one and the first one of a model.
ghost use Rattle.std.specs.Prelude.{◌≡◌, ℕ, ◌*◌, ◌≤◌, ◌<◌, length, slice_index_or};
ghost use Rattle.rules.specs.Configuration.{empty};
ghost use Rattle.expressions.specs.Lent.{model_of_program};
ghost use Rattle.cycle.specs.View.{view_of};
ghost use Rattle.cycle.specs.Arrays.{EntriesAre, variable_start, process_first, driver_start, first_value, value_at, FirstOf};

use expressions::program::Program;
use rules::READY;
use steps::delta::keep;
use steps::resolve::resolved;
use waveforms::driver::{Driver, NEVER};

// Signal s of k units ago stands at 32 * s + k, and its value before the latest delta step at 1024 + s. Driver k: its current value,
// its waveform, and the time of its first pending transaction (due), the largest number where it has none. A waveform's times are
// held as units from now: 32 bits, since a delay has 31. Process p: a deadline is the largest number where it has none.
// Stays: arrays with their totals, entry k of several for one driver or process: there is no heap, and a search reads one array alone.
// The numbers stand before the arrays, the time last of them: the list's loop keeps the time by itself, and the compiler then copies
// the arrays, a multiple of 64 bytes, as one part, which lies at equal offsets in its cache lines (bench/README.md).
#[derive(Drop)]
pub struct Config {
    pub nsignals: usize,
    pub nvariables: usize,
    pub ndrivers: usize,
    pub nprocesses: usize,
    pub deltas: u64,
    pub time: u64,
    pub signals: [u32; 1056],
    pub currents: [u32; 64],
    pub due: [u64; 64],
    pub drivers: [Driver; 64],
    pub places: [usize; 16],
    pub standings: [usize; 16],
    pub deadlines: [u64; 16],
    pub faults: [u32; 16],
    pub nodes: [u32; 16],
    pub variables: [u32; 64],
}

// An array whose first n entries are what `at` gives for them.
fn entries<T: Copy, F: Fn(usize) -> T, const N: usize>(n: usize, none: T, at: F) -> [T; N]
    requires n_bound { n ≤ N }
    requires callable { (i : ℕ) → i < n → F.pre at i }
    ensures { (i : ℕ) (d : T) → i < n → F.post at i (slice_index_or result i d) }
{
    let mut r = [none; N];
    for i in 0..n {
        r[i] = at(i);
    }
    r
}

fn first_variables(program: &Program) -> [u32; 64]
    ensures { EntriesAre (variable_start (model_of_program program.now)) program.now.records.totals.variables result }
{
    entries(program.records.totals.variables, 0, |i| {
        program.records.variable(i).start
    })
}

fn first_places(program: &Program) -> [usize; 16]
    ensures { EntriesAre (process_first (model_of_program program.now)) program.now.records.totals.processes result }
{
    entries(program.records.totals.processes, 0, |i| {
        program.records.process(i).first
    })
}

// "drivers have their signal's starting value"
fn first_currents(program: &Program) -> [u32; 64]
    ensures { EntriesAre (driver_start (model_of_program program.now)) program.now.records.totals.drivers result }
{
    let records = &program.records;
    entries(records.totals.drivers, 0, |k| {
        records.signal(records.driver(k).signal).start
    })
}

// The first value of each of the n signals, resolved over ndrivers current values.
fn first_values(program: &Program, currents: &[u32; 64], ndrivers: usize, n: usize) -> [u32; 32]
    requires ndrivers_value { ndrivers ≡ length (model_of_program program.now).drivers }
    requires n_value { n ≡ length (model_of_program program.now).signals }
    ensures { EntriesAre (first_value (model_of_program program.now) currents.now ndrivers) n result }
{
    entries(n, 0, |s| {
        resolved(
            program,
            currents,
            ndrivers,
            s,
            program.records.signal(s).start,
        )
    })
}

// Histories in which each of the first n values stands 32 times.
fn histories(values: &[u32; 32], n: usize) -> [u32; 1056]
    requires { n ≤ 32 }
    ensures { EntriesAre (value_at values.now) (32 * n) result }
{
    entries(32 * n, 0, |i| values[i / 32])
}

// The contracts speak of the view: what the arrays hold past the totals is left open, and no view shows it.
impl Config {
    pub fn empty() -> Config
        ensures { view_of result ≡ empty }
    {
        let d = Driver::none();
        Config {
            time: 0,
            deltas: 0,
            nsignals: 0,
            nvariables: 0,
            ndrivers: 0,
            nprocesses: 0,
            signals: [0; 1056],
            currents: [0; 64],
            due: [NEVER; 64],
            drivers: [d; 64],
            places: [0; 16],
            standings: [READY; 16],
            deadlines: [NEVER; 16],
            faults: [0; 16],
            nodes: [0; 16],
            variables: [0; 64],
        }
    }

    pub fn first(program: &Program) -> Config
        ensures { FirstOf (model_of_program program.now) result }
    {
        let d = Driver::none();
        let t = program.records.totals;
        let variables = first_variables(program);
        let places = first_places(program);
        let currents = first_currents(program);
        let values = first_values(program, &currents, t.drivers, t.signals);
        let mut signals = histories(&values, t.signals);
        keep(&mut signals, t.signals);
        Config {
            time: 0,
            deltas: 0,
            nsignals: t.signals,
            nvariables: t.variables,
            ndrivers: t.drivers,
            nprocesses: t.processes,
            signals,
            currents,
            due: [NEVER; 64],
            drivers: [d; 64],
            places,
            standings: [READY; 16],
            deadlines: [NEVER; 16],
            faults: [0; 16],
            nodes: [0; 16],
            variables,
        }
    }
}
