//! What is known of the order in which the rows of a bucket stand.

/// No slot: all rows of the bucket are in order.
pub const ALL: u32 = u32::MAX;

/// How far the rows of a bucket are known to be in order of start: those from the row of a slot on, up to the newest.
#[derive(Clone, Copy)]
pub struct Ordered {
    /// The time of the bucket; `NEVER` where nothing is known.
    pub time: u64,
    /// The slot, or `ALL`. Where its row isn't in the bucket any more nothing is known.
    pub rising: u32,
}
