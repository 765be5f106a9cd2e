// A driver's waveform: at most eight pending transactions, rising in time. times[j] is in how many units transaction j is due,
// values[j] its value, or NULL.
ghost use Rattle.std.specs.Prelude.{◌≡◌, [], ◌∷◌, ◌++◌, ℕ, ◌≤◌, drop};
ghost use Rattle.rules.specs.Configuration.{last_time};
ghost use Rattle.rules.specs.Statements.{equal_value};
ghost use Rattle.waveforms.specs.Pending.{driven_of, word_for, pending_of, first_time, NoneBefore};
ghost use Rattle.waveforms.specs.Waveform.{Waveform, Kept, RunStart, Nearer, BeforeTime, Without, LeftBy, ScheduledTo, Ahead, Elapsed};

use rules::driven::Driven;
use rules::mechanism::Mechanism;

// Later than any time: stands for no transaction and no deadline.
// Stays: the earliest of times is then their minimum, none included; Option's own order has None first.
pub const NEVER: u64 = 18446744073709551615;

// The word that stands for null: no value has it.
// Stays: a Driven takes two words, and fixed memory has a configuration hold 576 of them, copied as a whole by its callers.
pub const NULL: u32 = 2147483648;

// Stays: two arrays and a count, since there is no heap, and each search below reads one of the arrays alone.
#[derive(Clone, Copy)]
pub struct Driver {
    pub times: [u32; 8],
    pub values: [u32; 8],
    pub count: usize,
}

fn word_for(v: Driven) -> u32
    ensures { result ≡ word_for v }
{
    match v {
        Driven::To(x) => x,
        Driven::Null => NULL,
    }
}

// Whether the word w holds the value of v.
fn holds(w: u32, v: Driven) -> bool
    requires { driven_of (word_for v) ≡ v }
    ensures { result ≡ equal_value (driven_of w) v }
{
    match v {
        Driven::To(x) => w == x,
        Driven::Null => false,
    }
}

// How many of the first count times lie before the time at: the place of the first that does not.
fn kept(times: [u32; 8], count: usize, at: u32) -> usize
    requires { count ≤ 8 }
    ensures { Kept times count at result }
{
    times[..count]
        .iter()
        .position(|time| *time >= at)
        .unwrap_or(count)
}

// Of the first count words, where the run of those with the value of v begins that is last.
fn run_start(values: [u32; 8], count: usize, v: Driven) -> usize
    requires count_bound { count ≤ 8 }
    requires v_value { driven_of (word_for v) ≡ v }
    ensures { RunStart values count v result }
{
    for last in (0..count).rev() {
        if !holds(values[last], v) {
            return last + 1;
        }
    }
    0
}

// The first count times, n units later.
fn nearer(mut times: [u32; 8], count: usize, n: u64) -> [u32; 8]
    requires count_bound { count ≤ 8 }
    requires none_before { NoneBefore n times count }
    ensures { Nearer times count n result }
{
    for i in 0..count {
        times[i] -= n as u32;
    }
    times
}

// Stays: copy_within leaves the last element twice, and moves them in a loop.
fn drop_first(a: [u32; 8]) -> [u32; 8]
    ensures { result ≡ drop 1 a ++ 0 ∷ [] }
{
    [a[1], a[2], a[3], a[4], a[5], a[6], a[7], 0]
}

// The contracts speak of the pending transactions: what the arrays hold past the count is left open, and nothing reads it.
impl Driver {
    // No pending transaction.
    pub fn none() -> Driver
        ensures { (t : ℕ) → pending_of t result ≡ [] }
    {
        Driver {
            times: [0; 8],
            values: [0; 8],
            count: 0,
        }
    }

    // Removes the pending transactions in delay units or later.
    fn until(mut self, delay: u32) -> Driver
        requires { Waveform self }
        ensures { BeforeTime delay self result }
    {
        let ts = self.times;
        self.count = kept(ts, self.count, delay);
        self
    }

    // The first n transactions leave.
    fn without(mut self, n: usize) -> Driver
        requires n_le_count { n ≤ self.count }
        requires count_bound { self.count ≤ 8 }
        ensures { Without n self result }
    {
        for _ in 0..n {
            self = self.without_first();
        }
        self
    }

    // Removes what the delay removes where a transaction of v follows: nothing, or all before the run of its value that is last.
    fn left_by(self, v: Driven, mechanism: Mechanism) -> Driver
        requires count_bound { self.count ≤ 8 }
        requires v_value { driven_of (word_for v) ≡ v }
        ensures { LeftBy mechanism v self result }
    {
        match mechanism {
            Mechanism::Transport => self,
            Mechanism::Inertial => {
                let vs = self.values;
                self.without(run_start(vs, self.count, v))
            }
        }
    }

    // Removes the pending transactions in delay units or later and what the delay removes of those before, and adds one. A ninth is
    // refused.
    pub fn schedule(self, delay: u32, value: Driven, mechanism: Mechanism) -> Option<Driver>
        requires waveform { Waveform self }
        requires value_value { driven_of (word_for value) ≡ value }
        ensures { ScheduledTo self delay value mechanism result }
    {
        let early = self.until(delay);
        let mut d = early.left_by(value, mechanism);
        let n = d.count;
        if n < 8 {
            d.times[n] = delay;
            d.values[n] = word_for(value);
            d.count = n + 1;
            Some(d)
        } else {
            None
        }
    }

    // The first transaction leaves.
    pub fn without_first(self) -> Driver
        requires le_count { 1 ≤ self.count }
        requires count_bound { self.count ≤ 8 }
        ensures { (t : ℕ) → pending_of t result ≡ drop 1 (pending_of t self) }
    {
        let n = self.count;
        let ts = self.times;
        let us = drop_first(ts);
        let vs = self.values;
        let ws = drop_first(vs);
        Driver {
            times: us,
            values: ws,
            count: n - 1,
        }
    }

    // The time of the first transaction, or the largest number where there is none.
    pub fn first_time(self, now: u64) -> u64
        requires { now ≤ last_time }
        ensures { result ≡ first_time (pending_of now self) }
    {
        let n = self.count;
        if n == 0 {
            return NEVER;
        }
        now + u64::from(self.times[0])
    }

    // The same transactions, n units later.
    pub fn elapsed(self, n: u64) -> Driver
        requires { Ahead n self }
        ensures { Elapsed n self result }
    {
        let count = self.count;
        let ts = self.times;
        let times = nearer(ts, count, n);
        let values = self.values;
        Driver {
            times,
            values,
            count,
        }
    }
}
