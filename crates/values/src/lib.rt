// The nine values of IEEE 1164: the pair table, resolution by a lent one, its tests, and the operators. Total on words: a number above 8 is
// read as X.
#![tactic(auto)]

ghost use Rattle.std.specs.Prelude.{◌≡◌, ◌&&◌, ◌||◌, ◌<◌, eqb, length};
ghost use Rattle.base.specs.Cases.{◌∣◌, ◌⇒◌};
ghost use Rattle.values.specs.Nine.{U, X, ‘0’, ‘1’, code_of, is_u, low, high};
ghost use Rattle.values.specs.Resolve.{standard_rows, entries, entry_of, standard, pair_in, pair_of, resolution_by, resolution_of, row_symmetric, symmetric, pair_associative, row_associative, associative, ResolutionLaws, TableLaws};
ghost use Rattle.values.specs.Operators.{not_of, and_of, or_of, xor_of};
ghost use Rattle.values.specs.Bench.{rows, Holds};

use base::choose;
use std::array;

// The codes that the functions name.
// Stays: numbers, since any word is a value here (one above 8 is read as X), and specs/Nine and the exported functions speak of numbers.
const U: u32 = 0;

const X: u32 = 1;

const ZERO: u32 = 2;

const ONE: u32 = 3;

pub const Z: u32 = 4;

const L: u32 = 6;

const H: u32 = 7;

// The standard's pair table. Rows and columns: U X 0 1 Z W L H -.
const STANDARD: [[u16; 9]; 9] = [
    [0, 0, 0, 0, 0, 0, 0, 0, 0], // U
    [0, 1, 1, 1, 1, 1, 1, 1, 1], // X
    [0, 1, 2, 1, 2, 2, 2, 2, 1], // 0
    [0, 1, 1, 3, 3, 3, 3, 3, 1], // 1
    [0, 1, 2, 3, 4, 5, 6, 7, 1], // Z
    [0, 1, 2, 3, 5, 5, 5, 5, 1], // W
    [0, 1, 2, 3, 6, 5, 6, 5, 1], // L
    [0, 1, 2, 3, 7, 5, 5, 7, 1], // H
    [0, 1, 1, 1, 1, 1, 1, 1, 1], // -
];

// How many entries a pair table has, its rows one behind the other.
pub const ENTRIES: usize = 81;

fn code(x: u32) -> usize
    ensures { (result ≡ code_of x) × (result < 9) }
{
    if x < 9 { x as usize } else { 1 }
}

// Entry n of nine rows, one behind the other.
fn entry(rows: &[[u16; 9]; 9], n: usize) -> u16
    requires { n < entries }
    ensures { result ≡ entry_of rows.now n }
{
    rows[n / 9][n % 9]
}

// Entry n of the standard's table.
pub fn standard(n: usize) -> u16
    requires { n < entries }
    ensures { result ≡ entry_of standard_rows n }
{
    entry(&STANDARD, n)
}

// The entry of a table in the row of x and the column of y.
pub fn pair(table: &[u16], x: u32, y: u32) -> u32
    requires { length table.now ≡ entries }
    ensures value { result ≡ pair_in table.now x y }
    ensures table_laws { TableLaws table.now }
{
    let i = code(x);
    let j = code(y);
    u32::from(table[9 * i + j])
}

// The resolution of all of the values, by the table given.
pub fn resolve_by(table: &[u16], values: &[u32]) -> u32
    requires { length table.now ≡ entries }
    ensures { result ≡ resolution_by (pair_in table.now) values.now }
{
    match values.split_first() {
        Some((first, rest)) => rest.iter().fold(*first, |v, x| pair(table, v, *x)),
        None => Z,
    }
}

// The standard's table, its rows one behind the other.
fn standard_table() -> [u16; ENTRIES]
    ensures { result ≡ standard }
{
    array::from_fn(standard)
}

// The resolution of all of the values, by the standard's table.
pub fn resolve(values: &[u32]) -> u32
    ensures value { result ≡ resolution_of values.now }
    ensures resolution_laws { ResolutionLaws pair_of }
{
    let table = standard_table();
    resolve_by(&table, values)
}

// Whether the row of x has the entries of the column of x.
fn row_symmetric(table: &[u16], x: u32) -> bool
    requires { length table.now ≡ entries }
    ensures { result ≡ row_symmetric table.now x }
{
    (0..9).all(|y| pair(table, x, y) == pair(table, y, x))
}

// Whether a table is symmetric.
pub fn symmetric(table: &[u16]) -> bool
    requires { length table.now ≡ entries }
    ensures { result ≡ symmetric table.now }
{
    (0..9).all(|x| row_symmetric(table, x))
}

// Whether x, y and each third value may be grouped either way.
fn pair_associative(table: &[u16], x: u32, y: u32) -> bool
    requires { length table.now ≡ entries }
    ensures { result ≡ pair_associative table.now x y }
{
    (0..9).all(|z| pair(table, pair(table, x, y), z) == pair(table, x, pair(table, y, z)))
}

// Whether x and each two values may be grouped either way.
fn row_associative(table: &[u16], x: u32) -> bool
    requires { length table.now ≡ entries }
    ensures { result ≡ row_associative table.now x }
{
    (0..9).all(|y| pair_associative(table, x, y))
}

// Whether a table is associative.
pub fn associative(table: &[u16]) -> bool
    requires { length table.now ≡ entries }
    ensures { result ≡ associative table.now }
{
    (0..9).all(|x| row_associative(table, x))
}

// The class of a value, as the code that IEEE 1164's To_UX01 gives: 0 for 0 and L; 1 for 1 and H; U; X for the rest.
// Stays: here and below choices of a value. With a `match` the operators of two operands took twice to three times as long, with `if` 0.7 to 1.8
// times (bench/README.md).
fn class(x: u32) -> u32
    ensures { result ≡ (low x ⇒ ‘0’ ∣ high x ⇒ ‘1’ ∣ is_u x ⇒ U ∣ X) }
{
    let low = (x == ZERO) | (x == L);
    let high = (x == ONE) | (x == H);
    choose(low, ZERO, choose(high, ONE, choose(x == U, U, X)))
}

pub fn not(x: u32) -> u32
    ensures { result ≡ not_of x }
{
    let a = class(x);
    choose(a == ZERO, ONE, choose(a == ONE, ZERO, a))
}

// `and` of two classes: zero if either is; else U if either is; else one if both are; else X. With 0 and 1 exchanged it is `or`.
fn gate(a: u32, b: u32, zero: u32, one: u32) -> u32
    ensures { result ≡ (eqb a zero || eqb b zero ⇒ zero ∣ eqb a U || eqb b U ⇒ U ∣ eqb a one && eqb b one ⇒ one ∣ X) }
{
    let either = (a == zero) | (b == zero);
    let unset = (a == U) | (b == U);
    let both = (a == one) & (b == one);
    choose(either, zero, choose(unset, U, choose(both, one, X)))
}

pub fn and(x: u32, y: u32) -> u32
    ensures { result ≡ and_of x y }
{
    gate(class(x), class(y), ZERO, ONE)
}

pub fn or(x: u32, y: u32) -> u32
    ensures { result ≡ or_of x y }
{
    gate(class(x), class(y), ONE, ZERO)
}

pub fn xor(x: u32, y: u32) -> u32
    ensures { result ≡ xor_of x y }
{
    let a = class(x);
    let b = class(y);
    let unset = (a == U) | (b == U);
    let unknown = (a == X) | (b == X);
    choose(unset, U, choose(unknown, X, choose(a != b, ONE, ZERO)))
}

// How many rows the proved table of the bench has of this layer.
pub fn bench_rows() -> usize
    ensures value { result ≡ length rows }
    ensures holds { Holds rows }
{
    7
}
