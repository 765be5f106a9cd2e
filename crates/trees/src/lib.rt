// Rules 6 and 7: operands, tree sizes and types.
#![tactic(auto)]

pub mod trees;
pub mod types;
