// The parts of a delta step and of a time step, over arrays: the resolution of signals, the processes that wake, the past that shifts.
#![tactic(auto)]

pub mod delta;
pub mod resolve;
pub mod time;
