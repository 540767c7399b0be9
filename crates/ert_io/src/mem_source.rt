ghost use Rattle.std.specs.Prelude.{◌≡◌, ◌↔◌, ◌+◌, ◌-◌, ◌<◌, ◌≤◌, [], ◌++◌, Some, length, take, drop, min, Contains, IfOk, IsErr, OnOk, OnErr};
ghost use Rattle.ert_io.specs.Faults.{one_more};

use crate::calls::Calls;
use crate::failed::Failed;
use crate::source::Source;

/// A source over bytes in memory, some of whose reads fail.
#[derive(Debug, Drop)]
pub struct MemSource {
    bytes: Vec<u8>,
    // How many of the bytes were read.
    next: usize,
    calls: Calls,
    ghost within: { next ≤ length bytes.items },
}

impl MemSource {
    ghost use Rattle.ert_io.specs.Memory.{reads_of, failing_reads};

    /// HandsOut `bytes`, as many in a call as fit its buffer. `fails` lists the numbers, from 1, of the
    /// calls that are to fail.
    pub fn new(bytes: Vec<u8>, fails: Vec<u32>) -> MemSource
        ensures left { ⟦<Self as Source>⟧.left result ≡ Some bytes.items }
        ensures given { ⟦<Self as Source>⟧.given result ≡ [] }
        ensures faults { ⟦<Self as Source>⟧.faults result ≡ 0 }
        ensures reads { reads_of result ≡ 0 }
        ensures failing { failing_reads result ≡ fails.items }
    {
        MemSource {
            bytes,
            next: 0,
            calls: Calls::new(fails),
        }
    }
}

impl Source for MemSource {
    ghost use Rattle.ert_io.specs.Memory.{bytes_given, bytes_left, is_used_up, reads_of, failing_reads};

    ghost faults = { λ s. s.calls.faults };

    ghost given = { λ s. bytes_given s };

    ghost ended = { λ s. is_used_up s };

    ghost left = { λ s. Some (bytes_left s) };

    fn read(&mut self, buf: &mut [u8]) -> Result<usize, Failed>
        requires { 0 < length buf.old }
        ensures fails { IsErr result ↔ Contains (failing_reads self.old) (reads_of self.new) }
        ensures count { IfOk result (λ n. n ≡ min (length (bytes_left self.old)) (length buf.new)) }
        ensures given { IfOk result (λ n. bytes_given self.new ≡ bytes_given self.old ++ take n buf.new) }
        ensures left { IfOk result (λ n. bytes_left self.old ≡ take n buf.new ++ bytes_left self.new) }
        ensures end { IfOk result (λ n. n ≡ 0 → bytes_left self.new ≡ []) }
        ensures kept { OnErr result (bytes_given self.new ≡ bytes_given self.old) }
        ensures left_kept { OnErr result (bytes_left self.new ≡ bytes_left self.old) }
        ensures ok { OnOk result (⟦<Self as Source>⟧.faults self.new ≡ ⟦<Self as Source>⟧.faults self.old) }
        ensures err { OnErr result (⟦<Self as Source>⟧.faults self.new ≡ one_more (⟦<Self as Source>⟧.faults self.old)) }
        ensures later { ⟦<Self as Source>⟧.faults self.old ≤ ⟦<Self as Source>⟧.faults self.new }

        ensures reads { reads_of self.new ≡ one_more (reads_of self.old) }
        ensures failing { failing_reads self.new ≡ failing_reads self.old }
    {
        if self.calls.begin() {
            return Err(self.calls.fail());
        }
        let count = give(self.bytes.as_slice(), self.next, buf);
        self.next += count;
        Ok(count)
    }
}

/// Copies what stands in `from` past its first `next` bytes, as much as fits.
pub(crate) fn give(from: &[u8], next: usize, to: &mut [u8]) -> usize
    requires { next ≤ length from.now }
    ensures count { result ≡ min (length from.now - next) (length to.old) }
    ensures given { take (next + result) from.now ≡ take next from.now ++ take result to.new }
    ensures left { drop next from.now ≡ take result to.new ++ drop (next + result) from.now }
{
    copy_front(&from[next..], to)
}

// Copies the front of `from`, as much as fits.
fn copy_front(from: &[u8], to: &mut [u8]) -> usize
    ensures count { result ≡ min (length from.now) (length to.old) }
    ensures bytes { take result to.new ≡ take result from.now }
{
    let count = from.len().min(to.len());
    to[..count].copy_from_slice(&from[..count]);
    count
}
