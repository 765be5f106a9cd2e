// The rules of configurations, statements and orders (specs/), and their laws (proofs/). Code has only the forms that the rules name:
// a value or a fault, a value or null, when a signal is read, how an assignment delays, and what a statement does.
#![tactic(auto)]

pub mod driven;
pub mod effect;
pub mod mechanism;
pub mod moment;
pub mod value;

// Standings of a process.
// Stays: an answer's byte and the end configuration hold them as numbers (`picked_by`, `view_of` in specs of `cycle`).
pub const READY: usize = 0;

pub const WAITING: usize = 1;

pub const STOPPED: usize = 2;

// The node of a fault that no node has.
// Stays: no Option, since an answer's bytes have it so (`fault_and_node`).
pub const NO_NODE: u32 = 65535;

// How many delta steps are done at one time, and the latest time.
pub const DELTA_LIMIT: u64 = 1000;

pub const LAST_TIME: u64 = 1000000000000;
