// What a statement does.
ghost use Rattle.std.specs.Prelude.{◌≡◌, ℕ, ◌<◌, eqb, length};
ghost use Rattle.base.specs.Cases.{◌∣◌, ◌⇒◌};
ghost use Rattle.blocks.specs.Records.{statement_at};
ghost use Rattle.fields.specs.Fields.{owner_of};
ghost use Rattle.fields.specs.Facts.{Spans};
ghost use Rattle.rules.specs.declared.driven.Driven.TheVariants.{To};
ghost use Rattle.rules.specs.declared.effect.Effect.{Effect};
ghost use Rattle.rules.specs.declared.effect.Effect.TheVariants.{Skip, Store, Schedule, Jump, WaitFor};
ghost use Rattle.rules.specs.Statements.{with_value, with_delay, mechanism_of, effect_by, next_place};
ghost use Rattle.expressions.specs.Lent.{model_of_program, read_in};

use crate::eval::eval;
use crate::operators::int;
use crate::program::{Program, Readings};
use fields::ABSENT;
use model::owners::assignment_driver;
use rules::NO_NODE;
use rules::driven::Driven;
use rules::effect::Effect;
use rules::mechanism::Mechanism;
use rules::value::{Failure, Value};

fn store(a: usize, v: Value) -> Effect
    ensures { result ≡ with_value v (λ x. Store a x) }
{
    match v {
        Err(f) => Effect::Stop(f),
        Ok(x) => Effect::Store(a, x),
    }
}

fn branch(a: usize, v: Value) -> Effect
    ensures { result ≡ with_value v (λ x. eqb x 0 ⇒ Jump a ∣ Skip) }
{
    match v {
        Err(f) => Effect::Stop(f),
        Ok(0) => Effect::Jump(a),
        Ok(_) => Effect::Skip,
    }
}

// How an assignment of the kind delays.
fn mechanism_of(kind: usize) -> Mechanism
    ensures { result ≡ mechanism_of kind }
{
    if kind == 7 {
        Mechanism::Inertial
    } else {
        Mechanism::Transport
    }
}

// A delay: fault 2 if it is negative.
fn delay_of(c: Value) -> Value
    ensures { (next : ℕ → Effect) → with_value result next ≡ with_delay c next }
{
    let d = c?;
    if int(d) < 0 {
        return Err(Failure {
            fault: 2,
            node: NO_NODE,
        });
    }
    Ok(d)
}

// A schedule of a value or null on driver k.
fn schedule(k: usize, c: Value, v: Driven, w: Mechanism) -> Effect
    ensures { result ≡ with_delay c (λ d. Schedule k d v w) }
{
    match delay_of(c) {
        Err(f) => Effect::Stop(f),
        Ok(d) => Effect::Schedule(k, d, v, w),
    }
}

fn assign(k: usize, v: Value, c: Value, w: Mechanism) -> Effect
    ensures { result ≡ with_value v (λ x. with_delay c (λ d. Schedule k d (To x) w)) }
{
    match v {
        Err(f) => Effect::Stop(f),
        Ok(x) => schedule(k, c, Driven::To(x), w),
    }
}

fn wait_for(c: Value) -> Effect
    ensures { result ≡ with_delay c WaitFor }
{
    match delay_of(c) {
        Err(f) => Effect::Stop(f),
        Ok(d) => Effect::WaitFor(d),
    }
}

// What statement n does.
pub fn effect_of(program: &Program, readings: &Readings, n: usize) -> Effect
    requires { n < length (model_of_program program.now).statements }
    ensures { result ≡ effect_by (model_of_program program.now) (read_in readings.now) (owner_of (model_of_program program.now) n) (statement_at (model_of_program program.now) n) }
{
    let s = program.records.statement(n);
    let kind = s.kind;
    match kind {
        0 => Effect::Skip,
        1 => store(s.a, eval(program, readings, s.b)),
        2 | 7 => {
            let v = eval(program, readings, s.b);
            assign(
                assignment_driver(&program.records, n),
                v,
                eval(program, readings, s.c),
                mechanism_of(kind),
            )
        }
        3 => branch(s.a, eval(program, readings, s.b)),
        4 => Effect::Jump(s.a),
        5 => {
            if s.c == ABSENT {
                return Effect::Wait;
            }
            wait_for(eval(program, readings, s.c))
        }
        6 => schedule(
            assignment_driver(&program.records, n),
            eval(program, readings, s.c),
            Driven::Null,
            Mechanism::Transport,
        ),
        _ => Effect::Skip,
    }
}

// The place after i in process p: the last statement is followed by the first.
pub fn next_place(program: &Program, p: usize, i: usize) -> usize
    requires p_in_bounds { p < length (model_of_program program.now).processes }
    requires spans { Spans (model_of_program program.now) p i }
    ensures { result ≡ next_place (model_of_program program.now) p i }
{
    let r = program.records.process(p);
    if i + 1 < r.first + r.count {
        i + 1
    } else {
        r.first
    }
}
