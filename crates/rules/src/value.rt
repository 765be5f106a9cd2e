// The value of an expression.

// A fault, and the number of the node that failed.
#[derive(Clone, Copy)]
pub struct Failure {
    pub fault: u32,
    pub node: u32,
}

// What a node evaluates to: a value as 32 bits, or a fault with its node.
pub type Value = Result<u32, Failure>;
