// Quotient, mod and rem of integers.
#![tactic(auto)]

pub mod division;

ghost use Rattle.std.specs.Prelude.{◌≡◌};
ghost use Rattle.integers.specs.Division.{quotient, rem, modulo, division_of};
ghost use Rattle.integers.specs.Laws.{DivisionLaws, Divisible};

use crate::division::Division;

fn quotient(a: i64, b: i64) -> i64
    requires { Divisible a b }
    ensures { result ≡ quotient a b }
{
    a / b
}

fn rem(a: i64, b: i64) -> i64
    requires { Divisible a b }
    ensures { result ≡ rem a b }
{
    a % b
}

// Stays: std's `rem_euclid` gives another number, one that is never negative, where b is.
fn modulo(a: i64, b: i64) -> i64
    requires { Divisible a b }
    ensures { result ≡ modulo a b }
{
    let r = rem(a, b);
    if (r == 0) | ((r < 0) == (b < 0)) {
        r
    } else {
        r + b
    }
}

pub fn divide(which: Division, a: i64, b: i64) -> i64
    requires { Divisible a b }
    ensures value { result ≡ division_of which a b }
    ensures division_laws { DivisionLaws }
{
    match which {
        Division::Quotient => quotient(a, b),
        Division::Modulo => modulo(a, b),
        Division::Rem => rem(a, b),
    }
}
