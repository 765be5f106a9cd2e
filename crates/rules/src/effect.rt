// The effect of a statement.
use crate::driven::Driven;
use crate::mechanism::Mechanism;
use crate::value::Failure;

// What one statement does to its process, its variables and its drivers.
#[derive(Clone, Copy)]
pub enum Effect {
    // nothing but to move on
    Skip,
    // variable := value
    Store(usize, u32),
    // driver, delay, value or null, delay mechanism: a transaction
    Schedule(usize, u32, Driven, Mechanism),
    // the next place
    Jump(usize),
    // waits, with no deadline
    Wait,
    // waits, with a deadline after that many units
    WaitFor(u32),
    // stops with a fault and its node
    Stop(Failure),
}
