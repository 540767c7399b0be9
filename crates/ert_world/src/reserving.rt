//! The calls that make room in a mailbox or in a list of expired timers, and give it back. None makes an entry.
use crate::world::World;
use ert_defs::NoMemory;

impl World {
    ghost use Rattle.std.specs.Prelude.{◌≡◌, ◌<◌};

    /// Makes room in the mailbox of a process for so many more messages: `deliver` and `serve` put as many there without
    /// memory.
    ///
    /// If memory runs out, nothing has changed.
    pub fn reserve_mail(&mut self, process: u32, count: usize) -> Result<(), NoMemory>
        requires { process < self.old.settings.processes }
        ensures { self.new ≡ self.old }
    {
        self.mails[process as usize].reserve(count)
    }

    /// Gives back the memory of the mailbox of a process that its messages don't need: all of it where it has none. The work
    /// is in proportion to its messages.
    ///
    /// Out of memory comes where the smaller block for these couldn't be had; nothing has changed.
    pub fn shrink_mail(&mut self, process: u32) -> Result<(), NoMemory>
        requires { process < self.old.settings.processes }
        ensures { self.new ≡ self.old }
    {
        self.mails[process as usize].shrink()
    }

    /// Makes room in the list of expired timers of a scheduler for so many more: `advance` lets as many expire without
    /// memory, and `deliver`, which takes them out, gives their room back to the list.
    ///
    /// If memory runs out, nothing has changed.
    pub fn reserve_expired(&mut self, sched: u32, count: usize) -> Result<(), NoMemory>
        requires { sched < self.old.settings.schedulers }
        ensures { self.new ≡ self.old }
    {
        self.scheds[sched as usize].expired.reserve(count)
    }

    /// Gives back the memory of the list of expired timers of a scheduler that those which wait don't need: all of it where
    /// none waits. The work is in proportion to these.
    ///
    /// Out of memory comes where the smaller block for these couldn't be had; nothing has changed.
    pub fn shrink_expired(&mut self, sched: u32) -> Result<(), NoMemory>
        requires { sched < self.old.settings.schedulers }
        ensures { self.new ≡ self.old }
    {
        self.scheds[sched as usize].expired.shrink()
    }
}
