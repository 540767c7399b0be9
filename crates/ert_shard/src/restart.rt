//! The call of a shard that gives an armed timer a new deadline.
use crate::shard::Shard;
use ert_defs::{Start, TimerRef};
use ert_effects::RestartErr;

impl Shard {
    ghost use Rattle.std.specs.Prelude.{◌≡◌, ◌+◌, Err};
    ghost use Rattle.ert_effects.specs.{RestartCalls.Restarts, declared.answers.RestartErr.TheVariants.Full};
    ghost use Rattle.ert_shard.specs.{Renewing.LetsGo, Shards.{ShardGoes, ShardBy, IsHome}};
    ghost use Rattle.ert_timers.specs.Frees.{IsUsedUp, UsesFree};

    /// Gives an armed timer, of whatever wheel, a new deadline, and answers its new name (as `uv_timer_again` of libuv):
    /// it is cancelled, and one is started on the shard's wheel, for a process of its own.
    ///
    /// Mostly a timer of the shard's wheel gives its slot to the new one, and one step does both (`WheelPart::restart`). Each
    /// refusal is decided before: so a timer is lost by no answer. Where one was cancelled the shard's wheel holds no row of
    /// it. No memory is taken.
    #[inline(always)]
    pub fn restart(&mut self, timer: TimerRef, start: &Start) -> Result<TimerRef, RestartErr>
        requires { IsHome self.old.share start.now.dest }
        ensures call { ShardGoes self.old (ShardBy self.old (λ g. Restarts g (self.old.share.number + 1) self.old.share.number timer start.now result)) self.new }
        ensures full { result ≡ Err Full → IsUsedUp self.old.wheel self.new.wheel }
        ensures frees { UsesFree self.old.wheel self.new.wheel result }
        ensures forgotten { LetsGo timer result self.new }
    {
        self.wheel
            .restart(&self.desk, &mut self.pass, self.number + 1, timer, start)
    }
}
