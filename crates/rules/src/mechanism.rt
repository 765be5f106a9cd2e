// How an assignment delays what it schedules.
#[derive(Clone, Copy)]
pub enum Mechanism {
    // pending transactions before the new one stay
    Transport,
    // of these only the run that ends at the new one, all of its value
    Inertial,
}
