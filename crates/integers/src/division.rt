// The three divisions of integers.
#[derive(Clone, Copy)]
pub enum Division {
    Quotient,
    Modulo,
    Rem,
}
