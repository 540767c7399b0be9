use crate::op::Op;

/// What the threads of a race do, after the ops that come before it.
#[derive(Debug, Drop)]
pub struct RaceLists {
    /// How many turns each scheduler makes, at most 10,000.
    pub turns: u64,
    /// The ops of the clock's thread, which is caller 0: `tick`, `check`, `finalize` and `notify`.
    pub keeper: Vec<Op>,
    /// The ops of callers 1, 2 and so on, at most 16 lists. None has a `tick`, `check` or `finalize`, nor an
    /// op of a scheduler.
    pub callers: Vec<Vec<Op>>,
}
