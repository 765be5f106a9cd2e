// The time step: the past of each signal shifts by the units passed.
ghost use Rattle.std.specs.Prelude.{◌≡◌, ◌+◌, ◌≤◌, ◌<◌, length};
ghost use Rattle.steps.specs.Shift.{MovedBy, FilledTo, ShiftedBy};

// Of the history at base, each entry after the n-th takes what stood n before it.
fn move_past(signals: &mut [u32; 1056], base: usize, n: usize)
    requires base_bound { base + 32 ≤ 1024 }
    requires n_bound { n < 32 }
    requires signals_len { length signals.old ≡ 1056 }
    ensures { MovedBy signals.old base n signals.new }
{
    signals.copy_within(base + 1..base + 32 - n, base + 1 + n);
}

// Of the history at base, each of the n entries after the first takes the first's value.
fn fill_recent(signals: &mut [u32; 1056], base: usize, n: usize)
    requires base_bound { base + 32 ≤ 1024 }
    requires n_bound { n < 32 }
    requires signals_len { length signals.old ≡ 1056 }
    ensures { FilledTo signals.old base n signals.new }
{
    let current = signals[base];
    signals[base + 1..base + 1 + n].fill(current);
}

// The histories of nsignals signals, after n units.
pub fn shift(signals: &mut [u32; 1056], nsignals: usize, n: u64)
    requires nsignals_bound { nsignals ≤ 32 }
    requires signals_len { length signals.old ≡ 1056 }
    ensures { ShiftedBy signals.old n nsignals signals.new }
{
    let k = n.min(31) as usize;
    for s in 0..nsignals {
        let base = 32 * s;
        move_past(&mut *signals, base, k);
        fill_recent(&mut *signals, base, k);
    }
}
