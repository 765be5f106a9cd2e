// What a transaction carries.

// A value as 32 bits, or null: a driver whose current transaction is null is off.
// Stays: the shape of Option, but null is itself what a driver carries, and None would read as no transaction.
#[derive(Clone, Copy)]
pub enum Driven {
    To(u32),
    Null,
}
