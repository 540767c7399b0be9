use crate::failed::Failed;
use ert_defs::Reading;

/// The clocks of the operating system, read together.
pub trait OsClock {
    ghost use Rattle.std.specs.Prelude.{◌≡◌, ℕ, ◌≤◌, List, [], ◌∷◌, ◌++◌, Option, None, IfOk, OnErr};
    ghost use Rattle.ert_defs.specs.declared.settings.Reading.{Reading as TheReading};
    ghost use Rattle.ert_io.specs.{Faults.Rose, Known.before};

    // How many readings have failed: it never falls, and stops at 18446744073709551615.
    ghost faults: { Self → ℕ };

    // All readings that it gave so far.
    ghost given: { Self → List TheReading };

    // The readings that are left, where the clock tells them.
    ghost left: { Self → Option (List TheReading) } = { λ _. None };

    /// Takes a reading: the first of those that are left, where they are told.
    fn read(&mut self) -> Result<Reading, Failed>
        ensures given { IfOk result (λ r. given self.new ≡ given self.old ++ r ∷ []) }
        ensures left { IfOk result (λ r. left self.old ≡ before (r ∷ []) (left self.new)) }
        ensures kept { OnErr result (given self.new ≡ given self.old) }
        ensures left_kept { OnErr result (left self.new ≡ left self.old) }
        ensures later { faults self.old ≤ faults self.new }
        ensures cause { OnErr result (Rose (faults self.old) (faults self.new)) };
}
