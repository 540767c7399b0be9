//! How much waits in a world, told in constant time.
use crate::world::World;

impl World {
    ghost use Rattle.std.specs.Prelude.{◌≡◌, ◌<◌, length};
    ghost use Rattle.ert_defs.specs.States.{state};
    ghost use Rattle.ert_world.specs.{Held.{HoldsSoManyRows, AreArmed}, Worlds.world_sched};

    /// How many timers the wheel of a scheduler holds. No entry is made.
    ///
    /// Where no seat was given out these are the timers that are armed. A seat may cancel one, and then the wheel
    /// holds it until it would be due.
    pub fn held(&self, sched: u32) -> u64
        requires { sched < self.now.settings.schedulers }
        ensures rows { HoldsSoManyRows self.now sched result }
        ensures armed { AreArmed self.now sched result }
    {
        self.wheels[sched as usize].tally().rows
    }

    /// How many expired timers of a scheduler wait to be handed over. No entry is made.
    pub fn expired(&self, sched: u32) -> u64
        requires { sched < self.now.settings.schedulers }
        ensures { result ≡ length (world_sched self.now sched).expired }
    {
        self.scheds[sched as usize].expired.len() as u64
    }

    /// How many messages wait in the mailbox of a process, also of one that has exited. No entry is made.
    pub fn mail_count(&self, process: u32) -> u64
        requires { process < self.now.settings.processes }
        ensures { result ≡ length ((state self.now.settings self.now.history).mails process).queue }
    {
        self.mails[process as usize].waiting()
    }
}
