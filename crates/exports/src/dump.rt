// A configuration written out as numbers.
ghost use Rattle.std.specs.Prelude.{◌≡◌, ◌≤◌, ◌<◌, length, get_or};
ghost use Rattle.base.specs.Below.{list_below};
ghost use Rattle.rules.specs.Configuration.{driver_in, past_of, last_time};
ghost use Rattle.waveforms.specs.Pending.{driven_of, pending_of};
ghost use Rattle.cycle.specs.View.{view_of};
ghost use Rattle.exports.specs.Dump.{no_process, driven_word, total_word, driver_word, process_word, word_of};

use cycle::config::Config;
use waveforms::driver::{Driver, NEVER, NULL};

fn total_word(c: &Config, j: usize) -> u64
    ensures { result ≡ total_word (view_of c.now) j }
{
    match j {
        0 => c.time,
        1 => c.deltas,
        2 => c.nsignals as u64,
        3 => c.nvariables as u64,
        4 => c.ndrivers as u64,
        _ => c.nprocesses as u64,
    }
}

fn signal_word(c: &Config, s: usize, k: usize) -> u64
    requires s_bound { s < 32 }
    requires k_bound { k < 32 }
    ensures { result ≡ past_of (view_of c.now).signals s k }
{
    let n = c.nsignals;
    if s < n {
        return c.signals[32 * s + k] as u64;
    }
    0
}

fn earlier_word(c: &Config, s: usize) -> u64
    requires { s < 32 }
    ensures { result ≡ get_or (view_of c.now).earlier s 0 }
{
    let n = c.nsignals;
    if s < n {
        return c.signals[1024 + s] as u64;
    }
    0
}

fn variable_word(c: &Config, a: usize) -> u64
    requires { a < 64 }
    ensures { result ≡ get_or (view_of c.now).variables a 0 }
{
    let n = c.nvariables;
    if a < n {
        return c.variables[a] as u64;
    }
    0
}

// The word of what a driver's arrays hold: null is 2 to the 32.
fn driven_word(w: u32) -> u64
    ensures { result ≡ driven_word (driven_of w) }
{
    if w == NULL { 4294967296 } else { w as u64 }
}

// Word j of a driver with that current value, or null, at that time.
fn waveform_word(d: Driver, current: u32, time: u64, j: usize) -> u64
    requires time_le_last_time { time ≤ last_time }
    requires j_bound { j < 18 }
    ensures { result ≡ driver_word (record { current = driven_of current; pending = pending_of time d }) j }
{
    if j == 0 {
        return driven_word(current);
    }
    let n = d.count;
    if j == 1 {
        return n as u64;
    }
    if j < 10 {
        let k = j - 2;
        if k < n {
            return time + d.times[k] as u64;
        }
        return 0;
    }
    let k = j - 10;
    if k < n {
        return driven_word(d.values[k]);
    }
    0
}

fn driver_word(c: &Config, k: usize, j: usize) -> u64
    requires time_le_last_time { c.now.time ≤ last_time }
    requires k_bound { k < 64 }
    requires j_bound { j < 18 }
    ensures { result ≡ driver_word (driver_in (view_of c.now).drivers k) j }
{
    let n = c.ndrivers;
    if k < n {
        return waveform_word(c.drivers[k], c.currents[k], c.time, j);
    }
    0
}

fn process_word(c: &Config, p: usize, j: usize) -> u64
    requires { p < 16 }
    ensures { result ≡ process_word (get_or (view_of c.now).processes p no_process) j }
{
    let n = c.nprocesses;
    if n <= p {
        return 0;
    }
    match j {
        0 => c.places[p] as u64,
        1 => c.standings[p] as u64,
        2 => c.faults[p] as u64,
        3 => c.nodes[p] as u64,
        _ => {
            let t = c.deadlines[p];
            if t == NEVER {
                0
            } else if j == 4 {
                1
            } else {
                t
            }
        }
    }
}

// Word i of the configuration.
fn word(c: &Config, i: usize) -> u64
    requires { c.now.time ≤ last_time }
    ensures { result ≡ word_of (view_of c.now) i }
{
    if i < 6 {
        return total_word(c, i);
    }
    if i < 1030 {
        return signal_word(c, (i - 6) / 32, (i - 6) % 32);
    }
    if i < 1094 {
        return variable_word(c, i - 1030);
    }
    if i < 2246 {
        return driver_word(c, (i - 1094) / 18, (i - 1094) % 18);
    }
    if i < 2342 {
        return process_word(c, (i - 2246) / 6, (i - 2246) % 6);
    }
    if i < 2374 {
        return earlier_word(c, i - 2342);
    }
    0
}

// Writes the words of the configuration over the whole buffer.
pub(crate) fn dump(c: Config, words: &mut [u64])
    requires { c.time ≤ last_time }
    ensures { words.new ≡ list_below (word_of (view_of c)) (length words.old) }
{
    for i in 0..words.len() {
        words[i] = word(&c, i);
    }
}
