// Texts put one behind the other, numbers among them. Where the buffer does not hold one, it is only counted: so counting and writing are
// one walk.
ghost use Rattle.std.specs.Prelude.{[], ◌∷◌, ◌≤◌};
ghost use Rattle.numerals.specs.Numerals.{decimal_of, binary_of};
ghost use Rattle.numerals.specs.Puts.{far, Puts};

use crate::{binary_places, decimal, put_binary};

// Puts a text at a place, and answers the place behind it.
pub fn put(text: &[u8], out: &mut [u8], at: usize) -> usize
    requires { at ≤ far }
    ensures { Puts text.now out.old out.new at result }
{
    let end = at + text.len();
    if end <= out.len() {
        out[at..end].copy_from_slice(text);
    }
    end
}

// One byte.
pub fn put_byte(x: u8, out: &mut [u8], at: usize) -> usize
    requires { at ≤ far }
    ensures { Puts (x ∷ []) out.old out.new at result }
{
    let end = at + 1;
    if at < out.len() {
        out[at] = x;
    }
    end
}

// A number in base ten.
pub fn put_decimal(n: u64, out: &mut [u8], at: usize) -> usize
    requires { at ≤ far }
    ensures { Puts (decimal_of n) out.old out.new at result }
{
    let mut text = [0u8; 20];
    let k = decimal(n, &mut text);
    put(&text[..k], out, at)
}

// 32 bits in base two.
pub fn put_bits(x: u32, out: &mut [u8], at: usize) -> usize
    requires { at ≤ far }
    ensures { Puts (binary_of x) out.old out.new at result }
{
    let k = binary_places(x);
    let end = at + k;
    if end <= out.len() {
        put_binary(x, &mut out[at..end]);
    }
    end
}
