// Model blocks: rules 1 to 4, the totals, and where the records of each kind begin.
ghost use Rattle.std.specs.Prelude.{◌≡◌, true, ◌+◌, ◌*◌, ◌-◌, ◌<◌, ◌≤◌, length};
ghost use Rattle.base.specs.Below.{list_below};
ghost use Rattle.base.specs.Refusals.{told};
ghost use Rattle.base.specs.Rules.{first_failing};
ghost use Rattle.blocks.specs.Blocks.{length_ok, block_sum, sums_ok, trailing_ok, head_ok, heads_ok, CountIs, start_at, starts_of, total_of};
ghost use Rattle.blocks.specs.Records.{Model, model_of};
ghost use Rattle.blocks.specs.Totals.{totals_ok, block_rules, TotalsOf};
ghost use Rattle.blocks.specs.Index.{index_size, section_of, placed, Starts};

use crate::index::{
    DRIVERS_AT, NODES_AT, PROCESSES_AT, ROWS_AT, SIGNALS_AT, STATEMENTS_AT, Totals, VARIABLES_AT,
};
use base::refusal::Refusal;
use base::{byte, word};

// 1. Whether the length is a multiple of 512 from 512 to 32,768.
#[tactic(auto, unfolding(crate::specs::Blocks::length_ok, base::specs::Below::every))]
fn length_ok(m: &[u8]) -> bool
    ensures { result ≡ length_ok m.now }
{
    let n = m.len();
    (n % 512 == 0) & (512 <= n) & (n <= 32768)
}

// The sum of the words of block b.
fn block_sum(m: &[u8], b: usize) -> usize
    requires { 512 * b + 512 ≤ length m.now }
    ensures { result ≡ block_sum m.now b }
{
    let mut sum = 0;
    for i in 0..256 {
        sum += word(m, 512 * b + 2 * i);
    }
    sum
}

// 2. Whether the sum of each block is 1.
fn sums_ok(m: &[u8]) -> bool
    ensures { result ≡ sums_ok m.now }
{
    (0..m.len() / 512).all(|b| block_sum(m, b) % 65536 == 1)
}

// Whether the bytes of block b behind its records are zero up to byte 509.
fn trailing_ok(m: &[u8], b: usize) -> bool
    requires { 512 * b + 512 ≤ length m.now }
    ensures { result ≡ trailing_ok m.now b }
{
    let end = 4 + 12 * byte(m, 512 * b + 3);
    // Stays: no `all`. It ends at the first byte that fails, so the compiler tests one byte after the other.
    let mut ok = true;
    for i in 0..510 {
        ok = ok & ((i < end) | (byte(m, 512 * b + i) == 0));
    }
    ok
}

// Whether block b has its number, a kind, a count, no lower kind than the block before, and zeros behind its records.
#[tactic(auto, using(crate::proofs::BlockForms::head_form))]
fn head_ok(m: &[u8], b: usize) -> bool
    requires { 512 * b + 512 ≤ length m.now }
    ensures { result ≡ head_ok m.now b }
{
    let at = 512 * b;
    let kind = byte(m, at + 2);
    (word(m, at) == b)
        & (1 <= kind)
        & (kind <= 7)
        & (byte(m, at + 3) <= 42)
        & (byte(m, 512 * b.saturating_sub(1) + 2) <= kind)
        & trailing_ok(m, b)
}

// 3. Whether the number, kind, count, kind order and trailing zeros of each block are right.
fn heads_ok(m: &[u8]) -> bool
    ensures { result ≡ heads_ok m.now }
{
    (0..m.len() / 512).all(|b| head_ok(m, b))
}

// How many records of a kind block b has.
#[tactic(auto, unfolding(crate::specs::Blocks::count_in))]
fn count_in(m: &[u8], kind: usize, b: usize) -> usize
    requires { 512 * b + 512 ≤ length m.now }
    ensures { CountIs kind m.now b result }
{
    if byte(m, 512 * b + 2) == kind {
        byte(m, 512 * b + 3)
    } else {
        0
    }
}

// How many records of a kind there are.
fn total(m: &[u8], kind: usize) -> usize
    ensures { result ≡ total_of kind m.now }
{
    let mut n = 0;
    for b in 0..m.len() / 512 {
        n += count_in(m, kind, b);
    }
    n
}

// How many records of each kind there are.
pub fn totals(m: &[u8]) -> Totals
    ensures { TotalsOf (model_of m.now) result }
{
    Totals {
        signals: total(m, 1),
        variables: total(m, 2),
        processes: total(m, 3),
        drivers: total(m, 4),
        nodes: total(m, 5),
        statements: total(m, 6),
        rows: total(m, 7),
    }
}

// 4. Whether the totals are within their limits.
#[tactic(auto, using(crate::proofs::BlockForms::totals_form))]
pub fn totals_ok(t: Totals) -> bool
    ensures { (M : Model) → TotalsOf M t → result ≡ totals_ok M }
{
    (t.signals <= 32)
        & (t.variables <= 64)
        & (1 <= t.processes)
        & (t.processes <= 16)
        & (t.drivers <= 64)
        & (t.nodes <= 400)
        & (1 <= t.statements)
        & (t.statements <= 200)
        & ((t.rows == 0) | (t.rows == 9))
}

// The first of the rules 1 to 4 that fails: t has the model's totals.
#[tactic(auto, unfolding(crate::specs::Totals::block_rules, base::specs::Rules::first_failing))]
pub fn check_blocks(m: &[u8], t: Totals) -> Result<(), Refusal>
    requires { TotalsOf (model_of m.now) t }
    ensures { told result ≡ first_failing (block_rules m.now) }
{
    if !length_ok(m) {
        return Err(Refusal::ModelLength);
    }
    if !sums_ok(m) {
        return Err(Refusal::BlockSum);
    }
    if !heads_ok(m) {
        return Err(Refusal::BlockHead);
    }
    if !totals_ok(t) {
        return Err(Refusal::Counts);
    }
    Ok(())
}

// Writes where the first `count` records of block b begin, from place `at` on.
fn put_starts(b: usize, count: usize, at: usize, out: &mut [u16])
    requires { (b < 64) × (count < 256) × (at + count ≤ length out.old) }
    ensures { out.new ≡ placed out.old at (list_below (start_at b) count) }
{
    for j in 0..count {
        out[at + j] = (512 * b + 4 + 12 * j) as u16;
    }
}

// Writes where the records of a kind begin, from place `at` on.
fn put_kind(m: &[u8], kind: usize, at: usize, out: &mut [u16])
    requires { (length m.now ≤ 32768) × (at + total_of kind m.now ≤ length out.old) }
    ensures { out.new ≡ placed out.old at (starts_of kind m.now) }
{
    let mut n = at;
    for b in 0..m.len() / 512 {
        let count = count_in(m, kind, b);
        put_starts(b, count, n, out);
        n += count;
    }
}

// The place where the index keeps the starts of a kind.
#[tactic(auto, unfolding(crate::specs::Index::section_of))]
fn section(kind: usize) -> usize
    ensures { result ≡ section_of kind }
{
    match kind {
        1 => SIGNALS_AT,
        2 => VARIABLES_AT,
        3 => PROCESSES_AT,
        4 => DRIVERS_AT,
        5 => NODES_AT,
        6 => STATEMENTS_AT,
        _ => ROWS_AT,
    }
}

// Writes where the records of each kind begin. What the entries behind the starts hold is left open: the rules above fill them.
pub fn put_index(m: &[u8], out: &mut [u16])
    requires m_value { length_ok m.now ≡ true }
    requires m_value_2 { heads_ok m.now ≡ true }
    requires m_value_3 { totals_ok (model_of m.now) ≡ true }
    requires out_len { length out.old ≡ index_size }
    ensures { Starts m.now out.new }
{
    for kind in 1..8 {
        let at = section(kind);
        put_kind(m, kind, at, out);
    }
}
