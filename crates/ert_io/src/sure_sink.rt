ghost use Rattle.std.specs.Prelude.{◌≡◌, ◌<◌, ◌≤◌, ◌+◌, ◌-◌, [], ◌++◌, Some, Ok, length, max, OnOk, OnErr, vec_len, vec_capacity};

use crate::failed::Failed;
use crate::sink::Sink;
use ert_defs::NoMemory;
use std::alloc::Global;

/// A sink into memory that never fails: it tells how many more bytes it has room for, and what is written
/// has to fit. It has no room before the caller reserves some.
#[derive(Debug, Drop)]
pub struct SureSink {
    taken: Vec<u8>,
    room: usize,
    ghost covers: { vec_len taken + room ≤ vec_capacity taken },
}

impl SureSink {
    ghost use Rattle.ert_io.specs.Memory.{sure_taken, sure_room};

    /// Has taken nothing, and has no room.
    pub fn new(alloc: Global) -> SureSink
        ensures taken { sure_taken result ≡ [] }
        ensures room { sure_room result ≡ 0 }
    {
        SureSink {
            taken: Vec::new(alloc),
            room: 0,
        }
    }

    /// Makes the room at least `n` bytes. Where there is no memory for them, all is as before.
    pub fn reserve(&mut self, n: usize) -> Result<(), NoMemory>
        ensures taken { sure_taken self.new ≡ sure_taken self.old }
        ensures room { OnOk result (sure_room self.new ≡ max (sure_room self.old) n) }
        ensures kept { OnErr result (sure_room self.new ≡ sure_room self.old) }
    {
        if n <= self.room {
            return Ok(());
        }
        self.taken.reserve(n)?;
        self.room = n;
        Ok(())
    }

    /// The bytes that were taken.
    pub fn bytes(&self) -> &[u8]
        ensures { result.now ≡ sure_taken self.now }
    {
        self.taken.as_slice()
    }
}

impl Sink for SureSink {
    ghost use Rattle.ert_io.specs.Memory.{sure_taken, sure_room};

    ghost faults = { λ _. 0 };

    ghost taken = { λ s. sure_taken s };

    ghost room = { λ s. Some (sure_room s) };

    fn write(&mut self, bytes: &[u8]) -> Result<usize, Failed>
        requires some { 0 < length bytes.now }
        requires fits { length bytes.now ≤ sure_room self.old }
        ensures whole { result ≡ Ok (length bytes.now) }
        ensures bytes { sure_taken self.new ≡ sure_taken self.old ++ bytes.now }
        ensures room { sure_room self.old ≡ sure_room self.new + length bytes.now }
    {
        // The room is reserved, so no memory is taken.
        if self.taken.extend_from_slice(bytes).is_err() {
            unreachable!()
        }
        self.room -= bytes.len();
        Ok(bytes.len())
    }
}
