// A driver's pending transactions.
#![tactic(auto)]

pub mod driver;
