ghost use Rattle.std.specs.Prelude.{◌≡◌, ℕ, ◌++◌, ◌<◌, ◌≤◌, List, Bool, true, Option, None, length, take, IfOk, OnErr};
ghost use Rattle.ert_io.specs.{Faults.Rose, Known.{before, IsAtEnd}};

use crate::failed::Failed;

/// Where bytes come from.
pub trait Source {
    // How many reads have failed: it never falls, and stops at 18446744073709551615.
    ghost faults: { Self → ℕ };

    // All bytes that reads gave so far.
    ghost given: { Self → List ℕ };

    // Whether it has ended: a read that gave no byte has told it.
    ghost ended: { Self → Bool };

    // The bytes that are left, where the source tells them.
    ghost left: { Self → Option (List ℕ) } = { λ _. None };

    /// Reads at least one byte into the front of `buf`, which isn't empty, and tells how many. It
    /// tells 0 only where the source has ended.
    fn read(&mut self, buf: &mut [u8]) -> Result<usize, Failed>
        requires { 0 < length buf.old }
        ensures bound { IfOk result (λ n. n ≤ length buf.new) }
        ensures given { IfOk result (λ n. given self.new ≡ given self.old ++ take n buf.new) }
        ensures left { IfOk result (λ n. left self.old ≡ before (take n buf.new) (left self.new)) }
        ensures ended { IfOk result (λ n. n ≡ 0 → ended self.new ≡ true) }
        ensures none_left { IfOk result (λ n. n ≡ 0 → IsAtEnd (left self.new)) }
        ensures kept { OnErr result (given self.new ≡ given self.old) }
        ensures ended_kept { OnErr result (ended self.new ≡ ended self.old) }
        ensures left_kept { OnErr result (left self.new ≡ left self.old) }
        ensures later { faults self.old ≤ faults self.new }
        ensures cause { OnErr result (Rose (faults self.old) (faults self.new)) };
}
