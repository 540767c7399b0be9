//! What a wheel reads of the values that it keeps.
ghost use Rattle.std.specs.Prelude.{◌≡◌};
ghost use Rattle.ert_wheel.specs.declared.row.Key.{Key};

/// A value that a wheel keeps of a slot. The key of the slot's last row is in it.
pub trait Keyed: Copy {
    /// the key
    ghost key: { Self → Key };

    /// The deadline of the row, in milliseconds.
    fn deadline(self) -> u64
        ensures { result ≡ (key self).deadline };

    /// The order of the row.
    fn order(self) -> u64
        ensures { result ≡ (key self).order };
}
