// The model layer: rules 8 and 20, and loading a model: the first rule that it breaks, or its totals and index.
#![tactic(auto)]

pub mod load;
pub mod nulls;
pub mod owners;
