use crate::keyed::Keyed;

/// No row has this deadline, or a later one.
pub const NEVER: u64 = 192 << 36;

/// The greatest deadline that a row can have, 418 years of milliseconds.
pub const LAST: u64 = NEVER - 1;

/// How many buckets a wheel has: 1,024 on each of four levels, and 192 on the highest.
pub const BUCKETS: u32 = 4_288;

/// The deadline and the order of a row.
#[derive(Clone, Copy, Debug, PartialEq, Eq)]
pub struct Key {
    /// When the row is due, in milliseconds. At most [`LAST`].
    pub deadline: u64,
    /// Its rank among all rows that were put in: later ones have greater orders.
    pub order: u64,
}

/// A wheel may keep no more of a slot than the key.
impl Keyed for Key {
    ghost key = { λ key. key };

    fn deadline(self) -> u64 {
        self.deadline
    }

    fn order(self) -> u64 {
        self.order
    }
}

/// A row that is put into a wheel.
#[derive(Clone, Copy, Debug, PartialEq, Eq)]
pub struct Row {
    /// When the row is due, in milliseconds. At most [`LAST`].
    pub deadline: u64,
    /// Its rank among all rows that were put in: later ones have greater orders.
    pub order: u64,
    /// The slot whose row it is.
    pub slot: u32,
}

/// A row that a wheel holds, as it is told.
#[derive(Clone, Copy, Debug, PartialEq, Eq)]
pub struct HeldRow {
    /// When the row is due, in milliseconds. At most [`LAST`].
    pub deadline: u64,
    /// The slot whose row it is.
    pub slot: u32,
}

/// What is told of the first row that is due.
#[derive(Clone, Copy, Debug, PartialEq, Eq)]
pub enum FirstDue {
    /// The row.
    Row(HeldRow),
    /// No row is due, and that time was passed.
    Nothing,
    /// Rows have to fall before time can come to it, or to be put in order before the first is known: more than may.
    Moving,
}

// Due rows are collected and sorted in a list, four in a line of the caches.
const _: () = prove!(size_of::<HeldRow>() == 16);
