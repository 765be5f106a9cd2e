// The parts of the delta step: the active signals, their resolution, the processes that wake.
ghost use Rattle.std.specs.Prelude.{◌≡◌, ◌≤◌, ◌<◌, length};
ghost use Rattle.sets.specs.Sets.{SetOf};
ghost use Rattle.fields.specs.Fields.{absent};
ghost use Rattle.fields.specs.Facts.{Spans};
ghost use Rattle.rules.specs.Steps.{wakes, woken_by};
ghost use Rattle.rules.specs.Configuration.{last_time};
ghost use Rattle.rules.specs.Invariant.{ProcessValid};
ghost use Rattle.expressions.specs.Lent.{model_of_program, read_in};
ghost use Rattle.steps.specs.Delta.{active_in, KeptTo, ResolvedTo, state_of, woken_for, after_delta, ProcessesValid, WokenTo};

use crate::resolve::{resolved, undriven};
use expressions::effect::next_place;
use expressions::eval::eval;
use expressions::program::{Program, Readings};
use fields::ABSENT;
use rules::value::Value;
use rules::{READY, STOPPED, WAITING};
use sets::{has, meet, with};
use waveforms::driver::NEVER;

// The set of the signals that have a driver with a transaction due at the time.
pub fn actives(program: &Program, due: &[u64; 64], ndrivers: usize, time: u64) -> u32
    requires { ndrivers ≡ length (model_of_program program.now).drivers }
    ensures { SetOf (active_in (model_of_program program.now) due.now time ndrivers) result }
{
    let mut active: u32 = 0;
    for k in 0..ndrivers {
        if due[k] == time {
            let d = program.records.driver(k);
            active = with(active, d.signal, true);
        }
    }
    active
}

// The current values of the n signals become their earlier ones.
pub fn keep(signals: &mut [u32; 1056], n: usize)
    requires n_bound { n ≤ 32 }
    requires signals_len { length signals.old ≡ 1056 }
    ensures { KeptTo signals.old n signals.new }
{
    for s in 0..n {
        signals[1024 + s] = signals[32 * s];
    }
}

// Each active signal becomes the resolution of its drivers' current values, or what it is undriven. The result is the set of those that
// changed.
pub fn resolve(
    program: &Program,
    currents: &[u32; 64],
    ndrivers: usize,
    active: u32,
    signals: &mut [u32; 1056],
    nsignals: usize,
) -> u32
    requires ndrivers_value { ndrivers ≡ length (model_of_program program.now).drivers }
    requires nsignals_value { nsignals ≡ length (model_of_program program.now).signals }
    requires signals_len { length signals.old ≡ 1056 }
    ensures { ResolvedTo (model_of_program program.now) currents.now ndrivers active signals.old nsignals signals.new result }
{
    let mut changed: u32 = 0;
    for s in 0..nsignals {
        if has(active as usize, s) {
            let old = signals[32 * s];
            let other = undriven(program, s, old);
            let v = resolved(program, currents, ndrivers, s, other);
            signals[32 * s] = v;
            changed = with(changed, s, old != v);
        }
    }
    changed
}

// A process, and the processes, as the configuration holds them.
#[derive(Clone, Copy)]
pub struct Process {
    pub place: usize,
    pub standing: usize,
    pub deadline: u64,
    pub fault: u32,
    pub node: u32,
}

// Stays: the arrays are those of the configuration, which the picks, the answers and its end (`view_of` in specs of `cycle`) read one by one.
#[derive(Drop)]
pub struct Processes {
    pub places: [usize; 16],
    pub standings: [usize; 16],
    pub deadlines: [u64; 16],
    pub faults: [u32; 16],
    pub nodes: [u32; 16],
}

// Process p becomes ready, past its wait.
fn woken(program: &Program, p: usize, q: Process) -> Process
    requires p_in_bounds { p < length (model_of_program program.now).processes }
    requires spans { Spans (model_of_program program.now) p q.place }
    ensures { state_of result ≡ wakes (model_of_program program.now) p (state_of q) }
{
    Process {
        place: next_place(program, p, q.place),
        standing: READY,
        deadline: NEVER,
        fault: q.fault,
        node: q.node,
    }
}

// Process p, by the value of its wait's condition.
fn woken_by(program: &Program, p: usize, q: Process, v: Value) -> Process
    requires p_in_bounds { p < length (model_of_program program.now).processes }
    requires spans { Spans (model_of_program program.now) p q.place }
    ensures { state_of result ≡ woken_by (model_of_program program.now) p (state_of q) v }
{
    match v {
        Err(f) => Process {
            place: q.place,
            standing: STOPPED,
            deadline: q.deadline,
            fault: f.fault,
            node: f.node,
        },
        Ok(1) => woken(program, p, q),
        Ok(_) => q,
    }
}

// Process p after a change of a signal of its set: b is the condition of its wait.
fn woken_if(program: &Program, readings: &Readings, p: usize, q: Process, b: usize) -> Process
    requires p_in_bounds { p < length (model_of_program program.now).processes }
    requires spans { Spans (model_of_program program.now) p q.place }
    requires b_in_bounds { (b ≡ absent → ⊥) → b < length (model_of_program program.now).nodes }
    ensures { state_of result ≡ woken_for (model_of_program program.now) p (read_in readings.now) b (state_of q) }
{
    if b == ABSENT {
        return woken(program, p, q);
    }
    let v = eval(program, readings, b);
    woken_by(program, p, q, v)
}

// Process p after a delta step at the time, in which the signals of the set changed.
fn after_delta(
    program: &Program,
    readings: &Readings,
    changed: u32,
    time: u64,
    p: usize,
    q: Process,
) -> Process
    requires p_in_bounds { p < length (model_of_program program.now).processes }
    requires time_le_last_time { time ≤ last_time }
    requires process_valid { ProcessValid (model_of_program program.now) p time (state_of q) }
    ensures { state_of result ≡ after_delta (model_of_program program.now) p time changed (read_in readings.now) (state_of q) }
{
    if q.standing != WAITING {
        return q;
    }
    if q.deadline == time {
        return woken(program, p, q);
    }
    let w = program.records.statement(q.place);
    if meet(w.set, changed) {
        return woken_if(program, readings, p, q, w.b);
    }
    q
}

// The processes after a delta step, nprocesses of them; entries past them stay. One whose standing stays is as it was.
pub fn wake(
    program: &Program,
    readings: &Readings,
    changed: u32,
    time: u64,
    nprocesses: usize,
    mut ps: Processes,
) -> Processes
    requires nprocesses_value { nprocesses ≡ length (model_of_program program.now).processes }
    requires time_le_last_time { time ≤ last_time }
    requires processes_valid { ProcessesValid (model_of_program program.now) time nprocesses ps }
    ensures { WokenTo (model_of_program program.now) time changed (read_in readings.now) nprocesses ps result }
{
    for p in 0..nprocesses {
        let q = Process {
            place: ps.places[p],
            standing: ps.standings[p],
            deadline: ps.deadlines[p],
            fault: ps.faults[p],
            node: ps.nodes[p],
        };
        let r = after_delta(program, readings, changed, time, p, q);
        if r.standing != q.standing {
            ps.places[p] = r.place;
            ps.standings[p] = r.standing;
            ps.deadlines[p] = r.deadline;
            ps.faults[p] = r.fault;
            ps.nodes[p] = r.node;
        }
    }
    ps
}
