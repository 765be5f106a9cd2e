// Blocks and records: rules 1 to 4, where each record begins, and the records read from their own parts of the bytes.
#![tactic(auto)]

pub mod blocks;
pub mod index;
pub mod lent;
pub mod records;
