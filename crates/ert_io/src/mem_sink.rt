ghost use Rattle.std.specs.Prelude.{◌≡◌, ◌<◌, ◌≤◌, [], ◌++◌, length, take, min, Contains, IfOk, IsErr, OnOk, OnErr};
ghost use Rattle.ert_io.specs.Faults.{one_more};

use crate::calls::Calls;
use crate::failed::Failed;
use crate::sink::Sink;
use std::alloc::Global;

/// A sink into memory, some of whose writes fail.
#[derive(Debug, Drop)]
pub struct MemSink {
    taken: Vec<u8>,
    // The most bytes that one call takes.
    piece: usize,
    calls: Calls,
    ghost some: { 1 ≤ piece },
}

impl MemSink {
    ghost use Rattle.ert_io.specs.Memory.{piece_of, writes_of, failing_writes};

    /// Takes at most `piece` bytes in a call. `fails` lists the numbers, from 1, of the calls that are
    /// to fail; a call that finds no memory for its bytes fails too.
    pub fn new(alloc: Global, piece: usize, fails: Vec<u32>) -> MemSink
        requires { 1 ≤ piece }
        ensures taken { ⟦<Self as Sink>⟧.taken result ≡ [] }
        ensures faults { ⟦<Self as Sink>⟧.faults result ≡ 0 }
        ensures piece { piece_of result ≡ piece }
        ensures writes { writes_of result ≡ 0 }
        ensures failing { failing_writes result ≡ fails.items }
    {
        MemSink {
            taken: Vec::new(alloc),
            piece,
            calls: Calls::new(fails),
        }
    }

    /// The bytes that were taken.
    pub fn bytes(&self) -> &[u8]
        ensures { ⟦<Self as Sink>⟧.taken self.now ≡ result.now }
    {
        self.taken.as_slice()
    }
}

impl Sink for MemSink {
    ghost use Rattle.ert_io.specs.Memory.{taken_of, piece_of, writes_of, failing_writes};

    ghost faults = { λ s. s.calls.faults };

    ghost taken = { λ s. taken_of s };

    fn write(&mut self, bytes: &[u8]) -> Result<usize, Failed>
        requires { 0 < length bytes.now }
        // A call that finds no memory fails too.
        ensures fails { Contains (failing_writes self.old) (writes_of self.new) → IsErr result }
        ensures count { IfOk result (λ n. n ≡ min (piece_of self.old) (length bytes.now)) }
        ensures least { IfOk result (λ n. 0 < n) }
        ensures bytes { IfOk result (λ n. taken_of self.new ≡ taken_of self.old ++ take n bytes.now) }
        ensures kept { OnErr result (taken_of self.new ≡ taken_of self.old) }
        ensures ok { OnOk result (⟦<Self as Sink>⟧.faults self.new ≡ ⟦<Self as Sink>⟧.faults self.old) }
        ensures err { OnErr result (⟦<Self as Sink>⟧.faults self.new ≡ one_more (⟦<Self as Sink>⟧.faults self.old)) }
        ensures later { ⟦<Self as Sink>⟧.faults self.old ≤ ⟦<Self as Sink>⟧.faults self.new }

        ensures piece { piece_of self.new ≡ piece_of self.old }
        ensures writes { writes_of self.new ≡ one_more (writes_of self.old) }
        ensures failing { failing_writes self.new ≡ failing_writes self.old }
    {
        if self.calls.begin() {
            return Err(self.calls.fail());
        }
        let count = self.piece.min(bytes.len());
        match self.taken.extend_from_slice(&bytes[..count]) {
            Ok(()) => Ok(count),
            Err(_) => Err(self.calls.fail()),
        }
    }
}
