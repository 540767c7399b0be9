/// What is wrong with a value of a scenario.
#[derive(Clone, Copy)]
pub(crate) enum Fault {
    /// It isn't of the kind that is asked for.
    Shape,
    /// It is of that kind, and out of range.
    Range,
}
