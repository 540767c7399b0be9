use std::marker::Model;

/// A unit of time, by how many of it a second has: 1 to 2^63 - 1 (`erlang` module reference, type
/// `time_unit`).
#[derive(Clone, Copy, Debug, PartialEq, Eq)]
pub struct Unit {
    parts: u64,
}

impl Model for Unit {
    ghost use Rattle.std.specs.Prelude.{ℕ};
    ghost use Rattle.ert_ops.specs.Units.{IsParts};

    ghost Value = { ℕ };

    ghost view = { λ u. u.parts };

    ghost invariant = { λ u. IsParts u.parts };

    ghost inverse = { λ n. record { parts = n } };
}

impl Unit {
    ghost use Rattle.std.specs.Prelude.{◌≡◌, ◌↔◌, IsSome, IfSome};
    ghost use Rattle.ert_ops.specs.Units.{IsParts};

    /// The second.
    pub fn second() -> Unit
        ensures { result ≡ 1 }
    {
        Unit { parts: 1 }
    }

    /// The millisecond.
    pub fn millisecond() -> Unit
        ensures { result ≡ 1000 }
    {
        Unit { parts: 1_000 }
    }

    /// The microsecond.
    pub fn microsecond() -> Unit
        ensures { result ≡ 1000000 }
    {
        Unit { parts: 1_000_000 }
    }

    /// The nanosecond.
    pub fn nanosecond() -> Unit
        ensures { result ≡ 1000000000 }
    {
        Unit {
            parts: 1_000_000_000,
        }
    }

    /// The unit that the service counts in: the nanosecond.
    pub fn native() -> Unit
        ensures { result ≡ 1000000000 }
    {
        Unit::nanosecond()
    }

    /// The unit of which a second has `n`; None exactly where `n` is 0 or at least 2^63.
    pub fn parts(n: u64) -> Option<Unit>
        ensures some { IsSome result ↔ IsParts n }
        ensures unit { IfSome result (λ unit. unit ≡ n) }
    {
        if n == 0 || n >= 1 << 63 {
            return None;
        }
        Some(Unit { parts: n })
    }

    /// How many of the unit a second has.
    pub fn per_second(&self) -> u64
        ensures parts { result ≡ self.now }
        ensures in_range { IsParts result }
    {
        self.parts
    }
}
