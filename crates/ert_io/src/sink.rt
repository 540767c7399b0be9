ghost use Rattle.std.specs.Prelude.{◌≡◌, ℕ, ◌++◌, ◌<◌, ◌≤◌, List, Option, None, length, take, IfOk, OnErr};
ghost use Rattle.ert_io.specs.{Faults.Rose, Known.{more_by, HasRoomFor}};

use crate::failed::Failed;

/// Where bytes go.
pub trait Sink {
    // How many writes have failed: it never falls, and stops at 18446744073709551615.
    ghost faults: { Self → ℕ };

    // All bytes that were taken so far.
    ghost taken: { Self → List ℕ };

    // How many more bytes there is room for, where the sink tells it.
    ghost room: { Self → Option ℕ } = { λ _. None };

    /// Appends the first of `bytes`, which isn't empty: at least one, and it tells how many.
    fn write(&mut self, bytes: &[u8]) -> Result<usize, Failed>
        requires some { 0 < length bytes.now }
        requires fits { HasRoomFor (room self.old) (length bytes.now) }
        ensures least { IfOk result (λ n. 0 < n) }
        ensures most { IfOk result (λ n. n ≤ length bytes.now) }
        ensures bytes { IfOk result (λ n. taken self.new ≡ taken self.old ++ take n bytes.now) }
        ensures kept { OnErr result (taken self.new ≡ taken self.old) }
        ensures room { IfOk result (λ n. room self.old ≡ more_by n (room self.new)) }
        ensures room_kept { OnErr result (room self.new ≡ room self.old) }
        ensures later { faults self.old ≤ faults self.new }
        ensures cause { OnErr result (Rose (faults self.old) (faults self.new)) };
}
