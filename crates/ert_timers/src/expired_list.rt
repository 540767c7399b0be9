ghost use Rattle.std.specs.Prelude.{◌≡◌};

use ert_defs::{NoMemory, TimerRow};
use std::alloc::Global;
use std::collections::VecDeque;
use std::marker::Model;

/// The expired timers of a scheduler whose messages were not handed over, in order of expiry.
#[derive(Drop)]
pub struct ExpiredList {
    timers: VecDeque<TimerRow>,
}

impl Model for ExpiredList {
    ghost use Rattle.std.specs.Prelude.{◌-◌};
    ghost use Rattle.std.specs.VecDeque.{deque_len, deque_capacity};
    ghost use Rattle.ert_timers.specs.ExpiredLists.{Queue};

    ghost Value = { Queue };

    ghost view = { λ l. record { rows = l.timers.items; room = deque_capacity l.timers - deque_len l.timers } };
}

impl ExpiredList {
    ghost use Rattle.std.specs.Prelude.{◌≡◌, ◌≢◌, ◌↔◌, ◌+◌, ◌<◌, ◌≤◌, ◌++◌, [], ◌∷◌, length, IsTrue, OnOk, OnErr};
    ghost use Rattle.ert_defs.specs.Mails.{first_of, others_of};

    /// An empty list.
    pub fn new(alloc: Global) -> ExpiredList
        ensures { result.rows ≡ [] }
    {
        ExpiredList {
            timers: VecDeque::new(alloc),
        }
    }

    /// How many timers there are.
    pub fn len(&self) -> usize
        ensures { result ≡ length self.now.rows }
    {
        self.timers.len()
    }

    /// Whether there is none.
    pub fn is_empty(&self) -> bool
        ensures { IsTrue result ↔ (self.now.rows ≡ []) }
    {
        self.timers.is_empty()
    }

    /// The first one; None exactly where there is none.
    pub fn first(&self) -> Option<TimerRow>
        ensures { result ≡ first_of self.now.rows }
    {
        self.timers.front().copied()
    }

    /// Takes the first one out; None exactly where there is none.
    pub fn pop(&mut self) -> Option<TimerRow>
        ensures first { result ≡ first_of self.old.rows }
        ensures others { self.new.rows ≡ others_of self.old.rows }
        ensures room { self.old.room ≤ self.new.room }
    {
        self.timers.pop_front()
    }

    /// Makes room for so many more timers: then as many may expire (`WheelPart::advance`) without memory, and `pop` takes up
    /// no room.
    ///
    /// Out of memory comes only where there wasn't the room.
    pub fn reserve(&mut self, count: usize) -> Result<(), NoMemory>
        ensures room { OnOk result (count ≤ self.new.room) }
        ensures more { self.old.room ≤ self.new.room }
        ensures rows { self.new.rows ≡ self.old.rows }
        ensures memory { OnErr result (self.old.room < count) }
    {
        self.timers.reserve(count)?;
        Ok(())
    }

    /// Gives back the memory that its timers don't need: all of it where it has none. They are moved to a smaller block, so
    /// the work is in proportion to their number.
    ///
    /// Out of memory comes only where it has timers and room, and the smaller block couldn't be had.
    pub fn shrink(&mut self) -> Result<(), NoMemory>
        ensures room { OnOk result (self.new.room ≡ 0) }
        ensures less { self.new.room ≤ self.old.room }
        ensures rows { self.new.rows ≡ self.old.rows }
        ensures memory { OnErr result ((0 < self.old.room) × (self.old.rows ≢ [])) }
    {
        self.timers.shrink_to_fit();
        if self.timers.len() < self.timers.capacity() {
            return Err(NoMemory);
        }
        Ok(())
    }

    /// Adds a timer as the last one.
    pub(crate) fn push(&mut self, timer: TimerRow)
        requires { 0 < self.old.room }
        ensures rows { self.new.rows ≡ self.old.rows ++ timer ∷ [] }
        ensures room { self.old.room ≤ self.new.room + 1 }
    {
        self.timers.push_back_reserved(timer);
    }
}
