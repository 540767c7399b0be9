//! When a row may be due, and the row that tells it.

ghost use Rattle.std.specs.Prelude.{◌≡◌, min};

/// When a row may be due at the earliest, and the slot of a row that tells it.
#[derive(Clone, Copy)]
pub struct Early {
    pub time: u64,
    // A hint: whoever reads it looks whether that row tells the time.
    pub slot: u32,
}

impl Early {
    /// The earlier of two.
    #[inline]
    pub fn earlier(self, other: Early) -> Early
        ensures { result.time ≡ min self.time other.time }
    {
        if other.time < self.time { other } else { self }
    }
}
