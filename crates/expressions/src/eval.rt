// The value of an expression.
ghost use Rattle.std.specs.Prelude.{◌≡◌, ◌<◌, length, get_or, Ok};
ghost use Rattle.rules.specs.Evaluation.{Held, delayed_by, eval_of};
ghost use Rattle.expressions.specs.Lent.{model_of_program, read_in};
ghost use Rattle.expressions.specs.Reading.{signal_slot};

use crate::operators::{
    and, decided, divide, equal, less, minus, negate, not, or, plus, product, xor,
};
use crate::program::{Program, Readings};
use integers::division::Division;
use rules::moment::Moment;
use rules::value::Value;
use trees::types::type_at;

fn variable_of(variables: &[u32; 64], a: usize) -> Value
    requires { a < 64 }
    ensures { result ≡ Ok (get_or variables.now a 0) }
{
    Ok(variables[a])
}

// The moment of "delayed by k".
fn delayed(k: u32) -> Moment
    ensures { result ≡ delayed_by k }
{
    if k == 0 {
        Moment::DeltaAgo
    } else {
        Moment::UnitsAgo(k)
    }
}

// Where signal a at a moment stands.
fn slot(a: usize, at: Moment) -> usize
    requires { (a < 32) × Held at }
    ensures { result ≡ signal_slot a at }
{
    match at {
        Moment::Now => 32 * a,
        Moment::DeltaAgo => 1024 + a,
        Moment::UnitsAgo(k) => 32 * a + k as usize,
    }
}

// Signal a at a moment.
fn signal_of(signals: &[u32; 1056], a: usize, at: Moment) -> Value
    requires { (a < 32) × Held at }
    ensures { result ≡ Ok (get_or signals.now (signal_slot a at) 0) }
{
    Ok(signals[slot(a, at)])
}

// The value of node n. Operands are evaluated by this function, a before b.
// Stays: an arm for each operator of two operands, since one arm for all would ask for the kind a second time.
pub fn eval(program: &Program, readings: &Readings, n: usize) -> Value
    requires { n < length (model_of_program program.now).nodes }
    ensures { result ≡ eval_of (model_of_program program.now) (read_in readings.now) n }
{
    let d = program.records.node(n);
    let kind = d.kind;
    let a = d.a;
    let b = d.b;
    let at = n as u32;
    match kind {
        1 => Ok(d.k),
        2 => Ok(d.k),
        3 => variable_of(readings.variables, a),
        4 => signal_of(readings.signals, a, Moment::Now),
        5 => signal_of(readings.signals, a, delayed(d.k)),
        6 => not(type_at(&program.records, n), eval(program, readings, a)),
        7 => {
            let p = eval(program, readings, a);
            let ty = type_at(&program.records, n);
            if decided(ty, p, 0) {
                return p;
            }
            and(ty, p, eval(program, readings, b))
        }
        8 => {
            let p = eval(program, readings, a);
            let ty = type_at(&program.records, n);
            if decided(ty, p, 1) {
                return p;
            }
            or(ty, p, eval(program, readings, b))
        }
        9 => {
            let p = eval(program, readings, a);
            xor(type_at(&program.records, n), p, eval(program, readings, b))
        }
        10 => negate(at, eval(program, readings, a)),
        11 => {
            let p = eval(program, readings, a);
            plus(at, p, eval(program, readings, b))
        }
        12 => {
            let p = eval(program, readings, a);
            minus(at, p, eval(program, readings, b))
        }
        13 => {
            let p = eval(program, readings, a);
            equal(p, eval(program, readings, b))
        }
        14 => {
            let p = eval(program, readings, a);
            less(p, eval(program, readings, b))
        }
        15 => {
            let p = eval(program, readings, a);
            product(at, p, eval(program, readings, b))
        }
        16 => {
            let p = eval(program, readings, a);
            divide(at, Division::Quotient, p, eval(program, readings, b))
        }
        17 => {
            let p = eval(program, readings, a);
            divide(at, Division::Modulo, p, eval(program, readings, b))
        }
        18 => {
            let p = eval(program, readings, a);
            divide(at, Division::Rem, p, eval(program, readings, b))
        }
        _ => Ok(0),
    }
}
