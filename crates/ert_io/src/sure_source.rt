ghost use Rattle.std.specs.Prelude.{◌≡◌, ◌<◌, ◌≤◌, [], ◌++◌, Some, length, take, min, IfOk, IsOk};

use crate::failed::Failed;
use crate::mem_source::give;
use crate::source::Source;

/// A source over bytes in memory that never fails.
#[derive(Debug, Drop)]
pub struct SureSource {
    bytes: Vec<u8>,
    // How many of the bytes were read.
    next: usize,
    ghost within: { next ≤ length bytes.items },
}

impl SureSource {
    /// HandsOut `bytes`, as many in a call as fit its buffer.
    pub fn new(bytes: Vec<u8>) -> SureSource
        ensures left { ⟦<Self as Source>⟧.left result ≡ Some bytes.items }
        ensures given { ⟦<Self as Source>⟧.given result ≡ [] }
    {
        SureSource { bytes, next: 0 }
    }
}

impl Source for SureSource {
    ghost use Rattle.ert_io.specs.Memory.{sure_given, sure_left, is_sure_used_up};

    ghost faults = { λ _. 0 };

    ghost given = { λ s. sure_given s };

    ghost ended = { λ s. is_sure_used_up s };

    ghost left = { λ s. Some (sure_left s) };

    fn read(&mut self, buf: &mut [u8]) -> Result<usize, Failed>
        requires { 0 < length buf.old }
        ensures sure { IsOk result }
        ensures count { IfOk result (λ n. n ≡ min (length (sure_left self.old)) (length buf.new)) }
        ensures given { IfOk result (λ n. sure_given self.new ≡ sure_given self.old ++ take n buf.new) }
        ensures left { IfOk result (λ n. sure_left self.old ≡ take n buf.new ++ sure_left self.new) }
        ensures end { IfOk result (λ n. n ≡ 0 → sure_left self.new ≡ []) }
    {
        let count = give(self.bytes.as_slice(), self.next, buf);
        self.next += count;
        Ok(count)
    }
}
