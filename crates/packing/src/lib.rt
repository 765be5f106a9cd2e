// Records put into blocks: each kind in blocks of its own, all full but the last of a kind.
#![tactic(auto)]

ghost use Rattle.std.specs.Prelude.{◌≡◌, ◌+◌, ◌*◌, ◌/◌, ◌≤◌, ◌<◌, length};
ghost use Rattle.std.proofs.lemmas.List.Edits.{sets};
ghost use Rattle.base.specs.Below.{sum_below};
ghost use Rattle.base.specs.Bytes.{word_at, ByteIs};
ghost use Rattle.packing.specs.Packed.{block_byte, block_of, blocks_from, blocks_for, pages_of, Room, PackedIn};

use base::{byte, word};

// Byte i, or 0 where it is not there.
pub fn byte_or_zero(r: &[u8], i: usize) -> usize
    ensures { ByteIs r.now i result }
{
    if i < r.len() { byte(r, i) } else { 0 }
}

// Byte i of block b, which holds records of a kind.
fn block_byte(b: usize, kind: usize, r: &[u8], i: usize) -> usize
    requires { (b < 65536) × (kind < 256) × (length r.now ≤ 504) }
    ensures { (result ≡ block_byte b (record { kind = kind; bytes = r.now }) i) × (result < 256) }
{
    match i {
        0 => b % 256,
        1 => b / 256,
        2 => kind,
        3 => r.len() / 12,
        _ => byte_or_zero(r, i - 4),
    }
}

// The sum of the first 255 words.
fn words(block: &[u8]) -> usize
    requires { length block.now ≡ 512 }
    ensures { result ≡ sum_below (λ i. word_at block.now (2 * i)) 255 }
{
    let mut sum = 0;
    for i in 0..255 {
        sum += word(block, 2 * i);
    }
    sum
}

// Writes block b, which holds records of a kind.
fn put_block(out: &mut [u8], b: usize, kind: usize, r: &[u8])
    requires out_len { length out.old ≡ 512 }
    requires b_bound { (b < 65536) × (kind < 256) × (length r.now ≤ 504) }
    ensures { out.new ≡ block_of b (record { kind = kind; bytes = r.now }) }
{
    for i in 0..510 {
        out[i] = block_byte(b, kind, r, i) as u8;
    }
    let last = (65537 - words(out) % 65536) % 65536;
    out[510] = (last % 256) as u8;
    out[511] = (last / 256) as u8;
}

// Writes the blocks of one kind's records, numbered from b on, and answers the number behind them.
fn put_kind(out: &mut [u8], b: usize, kind: usize, r: &[u8]) -> usize
    requires { (512 * (b + blocks_for (length r.now / 12)) ≤ length out.old) × (b + blocks_for (length r.now / 12) ≤ 65536) × (kind < 256) }
    ensures value { result ≡ b + blocks_for (length r.now / 12) }
    ensures out_after { out.new ≡ sets out.old (512 * b) (blocks_from b (pages_of kind r.now)) }
{
    let n = (r.len() / 12 + 41) / 42;
    for j in 0..n {
        let from = 504 * j;
        let end = r.len().min(from + 504);
        let to = 512 * (b + j);
        put_block(&mut out[to..to + 512], b + j, kind, &r[from..end]);
    }
    b + n
}

// Writes the blocks of the records of all kinds, and answers how many blocks there are.
pub fn pack(
    signals: &[u8],
    variables: &[u8],
    processes: &[u8],
    drivers: &[u8],
    nodes: &[u8],
    statements: &[u8],
    out: &mut [u8],
) -> usize
    requires { Room (record { signals = signals.now; variables = variables.now; processes = processes.now; drivers = drivers.now; nodes = nodes.now; statements = statements.now }) out.old }
    ensures { PackedIn (record { signals = signals.now; variables = variables.now; processes = processes.now; drivers = drivers.now; nodes = nodes.now; statements = statements.now }) out.old out.new result }
{
    let a = put_kind(out, 0, 1, signals);
    let b = put_kind(out, a, 2, variables);
    let c = put_kind(out, b, 3, processes);
    let d = put_kind(out, c, 4, drivers);
    let e = put_kind(out, d, 5, nodes);
    put_kind(out, e, 6, statements)
}
