//! How much waits in a shard, told in constant time.
use crate::shard::Shard;

impl Shard {
    ghost use Rattle.std.specs.Prelude.{◌≡◌, length, count_by};
    ghost use Rattle.std.specs.Option.{is_some};
    ghost use Rattle.ert_defs.specs.States.{state};
    ghost use Rattle.ert_shard.specs.{Shards.IsHome, Turning.shard_expired};

    /// How many timers the shard's wheel holds: those that are armed, and those that other threads cancelled and that
    /// would not be due yet. No entry is made.
    pub fn held(&self) -> u64
        ensures { result ≡ count_by is_some self.now.wheel.keys }
    {
        self.wheel.tally().rows
    }

    /// How many expired timers of the shard wait to be handed over. No entry is made.
    pub fn expired(&self) -> u64
        ensures { result ≡ length (shard_expired self.now) }
    {
        self.sched.expired.len() as u64
    }

    /// How many messages wait in the mailbox of a process of the shard, also of one that has exited. No entry is made.
    pub fn mail_count(&self, process: u32) -> u64
        requires { IsHome self.now.share process }
        ensures { result ≡ length ((state self.now.settings self.now.history).mails process).queue }
    {
        self.mails[(process - self.from) as usize].waiting()
    }
}
