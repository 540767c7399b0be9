//! The exit of a process of a shard.
use crate::shard::Shard;
use ert_defs::Actor;

impl Shard {
    ghost use Rattle.std.specs.Prelude.{◌≡◌, ◌+◌, true};
    ghost use Rattle.ert_effects.specs.{Chains.SweepsWheel, WheelCalls.MarksExit};
    ghost use Rattle.ert_defs.specs.{States.HasExited, declared.entry.Actor.TheVariants.Caller};
    ghost use Rattle.ert_shard.specs.{Shards.{ShardSteps, ShardBy, IsHome}, Turning.ShardExits};

    /// Lets a process of the shard exit, cancels its timers, and returns true; false, and no more, if it had exited
    /// before (`exit`). All its timers are in the shard's wheel, see `Hub::shard`.
    pub fn exit(&mut self, process: u32) -> bool
        requires { IsHome self.old.share process }
        ensures { ShardSteps self.old (λ way. ShardExits self.old.settings way self.old.share.number process result) self.new }
    {
        if !self.mark(process) {
            return false;
        }
        self.sweep(process);
        true
    }

    /// Lets a process of the shard exit, and tells whether it hadn't before.
    fn mark(&mut self, process: u32) -> bool
        requires { IsHome self.old.share process }
        ensures call { ShardSteps self.old (ShardBy self.old (λ g. MarksExit g (Caller (self.old.share.number + 1)) process result)) self.new }
        ensures exited { HasExited self.new.settings self.new.history process }
    {
        let by = Actor::Caller(self.number + 1);
        self.pass.mark_exit(&self.desk, by, process)
    }

    /// Cancels the timers of a process of the shard that has exited.
    fn sweep(&mut self, process: u32)
        requires home { IsHome self.old.share process }
        requires exited { HasExited self.old.settings self.old.history process }
        ensures { ShardSteps self.old (λ way. SweepsWheel self.old.settings way (self.old.share.number + 1) process self.old.share.number) self.new }
    {
        let by = self.number + 1;
        self.wheel.sweep(&self.desk, &mut self.pass, by, process);
    }
}
