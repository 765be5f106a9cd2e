// The closed chain to return, of a relation given as rows of bits: bit b of row a says that process a leads to process b.
#![tactic(auto)]

ghost use Rattle.std.specs.Prelude.{◌≡◌, ◌&&◌, suc, ◌≤◌, ◌<◌};
ghost use Rattle.base.specs.Course.{first_with};
ghost use Rattle.sets.specs.Sets.{in_set, SetOf};
ghost use Rattle.loops.specs.Search.{chain_from, round_of};
ghost use Rattle.chains.specs.Rows.{arrow, meets_row, leads_back, NamesBelow, Related, Closes, IsChain, Returned};

use sets::{has, meet, with};

// A chain of at least one process: the first `len` entries of `at`, in order. The others are 0.
// Stays: an array with a length, since the kernel has no heap.
#[derive(Drop)]
pub struct Chain {
    pub at: [usize; 16],
    pub len: usize,
}

// The processes below n whose row has one of the set.
fn meeting(rows: &[u32; 16], n: usize, set: u32) -> u32
    requires { n ≤ 16 }
    ensures { SetOf (meets_row rows.now n set) result }
{
    let mut out: u32 = 0;
    for v in 0..n {
        out = with(out, v, meet(rows[v], set));
    }
    out
}

// The relation, of what each process assigns without delay and what it waits on, as sets of signals: a leads to b where a assigns a
// signal that b waits on.
pub fn relation<'a>(assigned: &'a [u32; 16], waited: &'a [u32; 16], n: usize) -> [u32; 16]
    requires { n ≤ 16 }
    ensures { Related assigned.now waited.now n result }
{
    let mut rows: [u32; 16] = [0; 16];
    for a in 0..n {
        rows[a] = meeting(waited, n, assigned[a]);
    }
    rows
}

// The processes from which k edges lead to s.
fn back(rows: &[u32; 16], n: usize, s: usize, k: usize) -> u32
    requires n_bound { n ≤ 16 }
    requires s_lt_n { s < n }
    ensures { SetOf (leads_back rows.now n s k) result }
{
    let mut set = with(0, s, true);
    for _ in 0..k {
        set = meeting(rows, n, set);
    }
    set
}

// One less than the fewest edges that lead from s back to it, if some do.
fn round(rows: &[u32; 16], n: usize, s: usize) -> Option<usize>
    requires n_bound { n ≤ 16 }
    requires s_lt_n { s < n }
    ensures { NamesBelow n (round_of (arrow rows.now) n s) result }
{
    let mut set = with(0, s, true);
    for l in 0..n {
        set = meeting(rows, n, set);
        if has(set as usize, s) {
            return Some(l);
        }
    }
    None
}

// The lowest number below n that is in both sets, or n.
fn lowest(a: u32, b: u32, n: usize) -> usize
    requires { n ≤ 16 }
    ensures { result ≡ first_with (λ w. in_set a w && in_set b w) n }
{
    (0..n)
        .find(|w| has(a as usize, *w) & has(b as usize, *w))
        .unwrap_or(n)
}

// The chain from s by l + 1 edges back to it: on to the lowest process from which the edges that are left lead back.
fn chain_from(rows: &[u32; 16], n: usize, s: usize, l: usize) -> Chain
    requires { Closes rows.now n s l }
    ensures { IsChain (chain_from (arrow rows.now) n s (suc l) s) result }
{
    let len = l + 1;
    let mut at = [0; 16];
    let mut v = s;
    for i in 0..len {
        at[i] = v;
        v = lowest(rows[v], back(rows, n, s, l - i), n);
    }
    Chain { at, len }
}

// The closed chain to return, of the processes below n, if there is one.
pub fn closed_chain(rows: &[u32; 16], n: usize) -> Option<Chain>
    requires { n ≤ 16 }
    ensures { Returned (arrow rows.now) n result }
{
    for s in 0..n {
        if let Some(l) = round(rows, n, s) {
            return Some(chain_from(rows, n, s, l));
        }
    }
    None
}
