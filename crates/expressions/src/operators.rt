// The operators of expressions on values and faults.
ghost use Rattle.std.specs.Prelude.{◌≡◌, false, ◌≤◌, nat_abs};
ghost use Rattle.std.specs.Int.{w32};
ghost use Rattle.std.proofs.Common.{of_z};
ghost use Rattle.integers.specs.Division.{division_of};
ghost use Rattle.rules.specs.Evaluation.{int, failed_at, ranged, negate_of, sum_of, difference_of, equal_of, less_of, product_of, divided, one, two, decided_by, not_by, and_by, or_by, xor_by};

use integers::division::Division;
use rules::value::{Failure, Value};

// The integer that 32 bits hold.
pub(crate) fn int(x: u32) -> i64
    ensures { result ≡ int x }
{
    i64::from(x.cast_signed())
}

// The 32 bits of an integer of at most 2 to the 31.
fn bits_of(z: i64) -> u32
    requires { nat_abs z ≤ 2147483648 }
    ensures { result ≡ of_z w32 z }
{
    (z.cast_unsigned() & 0xffffffff) as u32
}

// A fault of node n.
fn failed(n: u32, fault: u32) -> Value
    ensures { result ≡ failed_at n fault }
{
    Err(Failure { fault, node: n })
}

// The 32 bits of an integer, the value of node n, or fault 1 if it is out of range.
fn in_range(n: u32, z: i64) -> Value
    ensures { result ≡ ranged n z }
{
    if z.unsigned_abs() < 2147483648 {
        Ok(bits_of(z))
    } else {
        failed(n, 1)
    }
}

pub(crate) fn negate(n: u32, p: Value) -> Value
    ensures { result ≡ one p (negate_of n) }
{
    let x = p?;
    in_range(n, 0 - int(x))
}

pub(crate) fn plus(n: u32, p: Value, q: Value) -> Value
    ensures { result ≡ two p q (sum_of n) }
{
    let x = p?;
    let y = q?;
    in_range(n, int(x) + int(y))
}

pub(crate) fn minus(n: u32, p: Value, q: Value) -> Value
    ensures { result ≡ two p q (difference_of n) }
{
    let x = p?;
    let y = q?;
    in_range(n, int(x) - int(y))
}

pub(crate) fn equal(p: Value, q: Value) -> Value
    ensures { result ≡ two p q equal_of }
{
    let x = p?;
    let y = q?;
    Ok(u32::from(x == y))
}

pub(crate) fn less(p: Value, q: Value) -> Value
    ensures { result ≡ two p q less_of }
{
    let x = p?;
    let y = q?;
    Ok(u32::from(int(x) < int(y)))
}

pub(crate) fn product(n: u32, p: Value, q: Value) -> Value
    ensures { result ≡ two p q (product_of n) }
{
    let x = p?;
    let y = q?;
    in_range(n, int(x) * int(y))
}

// Quotient, mod or rem; a divisor of 0 is fault 4.
pub(crate) fn divide(n: u32, which: Division, p: Value, q: Value) -> Value
    ensures { result ≡ two p q (divided n (division_of which)) }
{
    let x = p?;
    let y = q?;
    if y == 0 {
        return failed(n, 4);
    }
    Ok(bits_of(integers::divide(which, int(x), int(y))))
}

// The operators of logic and boolean values, by the type: 2 boolean, else logic.
pub(crate) fn not(ty: usize, p: Value) -> Value
    ensures { result ≡ not_by ty p }
{
    let x = p?;
    if ty == 2 {
        Ok(u32::from(x == 0))
    } else {
        Ok(values::not(x))
    }
}

// Whether p is a fault, or a boolean that decides, so that the second operand is not evaluated.
pub(crate) fn decided(ty: usize, p: Value, decides: u32) -> bool
    ensures { result ≡ decided_by ty p decides }
{
    match p {
        Err(_) => true,
        Ok(x) => (ty == 2) & (x == decides),
    }
}

// `and` and `or` where the first operand did not decide: of booleans the second one is the value.
pub(crate) fn and(ty: usize, p: Value, q: Value) -> Value
    requires { decided_by ty p 0 ≡ false }
    ensures { result ≡ and_by ty p q }
{
    let x = p?;
    let y = q?;
    if ty == 2 {
        Ok(y)
    } else {
        Ok(values::and(x, y))
    }
}

pub(crate) fn or(ty: usize, p: Value, q: Value) -> Value
    requires { decided_by ty p 1 ≡ false }
    ensures { result ≡ or_by ty p q }
{
    let x = p?;
    let y = q?;
    if ty == 2 { Ok(y) } else { Ok(values::or(x, y)) }
}

pub(crate) fn xor(ty: usize, p: Value, q: Value) -> Value
    ensures { result ≡ xor_by ty p q }
{
    let x = p?;
    let y = q?;
    if ty == 2 {
        Ok(u32::from(x != y))
    } else {
        Ok(values::xor(x, y))
    }
}
