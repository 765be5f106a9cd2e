// The cycle layer: the configuration, pick, settle, pick of a set, delta step, time step and read.
#![tactic(auto)]

pub mod config;
pub mod delta;
pub mod orders;
pub mod picks;
pub mod time;
