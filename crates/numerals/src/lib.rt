// Numbers as text, in base ten and in base two, and texts put one behind the other.
#![tactic(auto)]

pub mod put;

ghost use Rattle.std.specs.Prelude.{◌≡◌, length, take};
ghost use Rattle.io.specs.Counts.{IsPrefixLen};
ghost use Rattle.io.specs.Digits.{last_digits};
ghost use Rattle.numerals.specs.Numerals.{places_in, decimal_of};

// Writes a number in base ten, and answers how many digits it has.
pub(crate) fn decimal(n: u64, text: &mut [u8; 20]) -> usize
    ensures prefix_len { IsPrefixLen result text.new }
    ensures text_after { take result text.new ≡ decimal_of n }
{
    io::decimal(n, text)
}

// How many digits 32 bits have in base two.
pub(crate) fn binary_places(x: u32) -> usize
    ensures { result ≡ places_in 2 31 x }
{
    x.max(1).ilog2() as usize + 1
}

// Writes the last digits of a number in base two over the whole slice, the last one first.
pub(crate) fn put_binary(x: u32, out: &mut [u8])
    ensures { out.new ≡ last_digits 2 (length out.old) x }
{
    let n = out.len();
    let mut rest = x;
    for k in 0..n {
        out[n - 1 - k] = b'0' + (rest % 2) as u8;
        rest /= 2;
    }
}
