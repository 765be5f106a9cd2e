// The value of an expression, and what a statement does.
#![tactic(auto)]

pub mod effect;
pub mod eval;
pub mod operators;
pub mod program;
