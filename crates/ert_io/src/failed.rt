/// A read, a write or a reading of a clock failed. It moved no byte and gave no reading, and its source,
/// sink or clock counted a fault.
#[derive(Clone, Copy, Debug, PartialEq, Eq)]
pub struct Failed;
