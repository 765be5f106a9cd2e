// When an expression reads a signal.
#[derive(Clone, Copy)]
pub enum Moment {
    Now,
    // before the latest delta step
    DeltaAgo,
    UnitsAgo(u32),
}
