// Records written into a buffer, one behind the other. What lies past the buffer's end is not stored.
#![tactic(auto)]

ghost use Rattle.std.specs.Prelude.{◌≡◌, ◌*◌, ◌<◌, set};
ghost use Rattle.std.proofs.lemmas.List.Edits.{sets};
ghost use Rattle.writing.specs.Written.{word_bytes, record_bytes};

// A byte at a place.
fn put(out: &mut [u8], at: usize, b: usize)
    requires { b < 256 }
    ensures { out.new ≡ set out.old at b }
{
    if at < out.len() {
        out[at] = b as u8;
    }
}

// 16 bits at a place.
fn put_word(out: &mut [u8], at: usize, w: usize)
    requires { (w < 65536) × (at < 1048576) }
    ensures { out.new ≡ sets out.old at (word_bytes w) }
{
    put(out, at, w % 256);
    put(out, at + 1, w / 256);
}

// Record n, of a kind, three numbers and 32 bits.
// Stays: a kind is a number, the one that stands in the record (`nodes_of` and `statements_of`, which the contracts of reader and text_model name).
pub fn put_record(out: &mut [u8], n: usize, kind: usize, a: usize, b: usize, c: usize, l: u32)
    requires { (n < 65536) × (kind < 65536) × (a < 65536) × (b < 65536) × (c < 65536) }
    ensures { out.new ≡ sets out.old (12 * n) (record_bytes kind a b c l) }
{
    let at = 12 * n;
    let long = l as usize;
    put_word(out, at, kind);
    put_word(out, at + 2, a);
    put_word(out, at + 4, b);
    put_word(out, at + 6, c);
    put_word(out, at + 8, long % 65536);
    put_word(out, at + 10, long / 65536);
}
