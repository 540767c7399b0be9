//! The shard of a scheduler, and its calls on the clock and on timers.
use ert_defs::{Actor, OffsetState, Start, TimerRef};
use ert_mail::{InboxPart, MailList, MailPart};
use ert_table::{Desk, Pass};
use ert_timers::{SchedPart, StartErr, WheelPart};
use std::marker::Model;
use std::sync::Arc;

/// A share of a desk, and the pass and the parts of one scheduler, of one caller and of some processes.
///
/// A thread that has it starts timers for its processes, lets them expire and takes their messages. It reads and
/// cancels the timers of all shards. Its calls take no lock and wait for nobody, beside the calls of all other shards and
/// of the hub. There are 64 unused bytes at each end, so wherever a shard lies, nothing that another thread writes is on a
/// cache line with it.
#[derive(Drop)]
pub struct Shard {
    pub(crate) before: [u64; 8],
    pub(crate) desk: Arc<Desk>,
    pub(crate) pass: Pass,
    /// The number of the scheduler. Its caller is the one after that number.
    pub(crate) number: u32,
    /// The first of its processes, and the first after them.
    pub(crate) from: u32,
    pub(crate) to: u32,
    pub(crate) wheel: WheelPart,
    pub(crate) inbox: InboxPart,
    pub(crate) sched: SchedPart,
    pub(crate) mails: Vec<MailPart>,
    /// The processes whose mailboxes may have mail, counted from the first, from the first `next_mail` on.
    pub(crate) list: Option<MailList>,
    pub(crate) after: [u64; 8],
}

impl Model for Shard {
    ghost use Rattle.std.specs.{Arc.arc_value, Coded.codes};
    ghost use Rattle.ert_shard.specs.Shards.{Owned, owned, share_of, shard_parts_of, AreShardPartsFit};
    ghost use Rattle.ert_timers.specs.Parts.{part_code};
    ghost use Rattle.ert_mail.specs.Turns.{row_code};

    ghost Value = { Owned };

    ghost coded = { Prim.hlevel (codes, part_code, row_code) };

    ghost view = { λ s. owned (arc_value s.desk) s.pass (share_of s.number s.from s.to) s.wheel s.list };

    ghost invariant = { λ s. AreShardPartsFit (arc_value s.desk) s.pass (share_of s.number s.from s.to) (shard_parts_of s.wheel s.inbox s.sched s.mails.items s.list) };
}

impl Shard {
    ghost use Rattle.std.specs.Prelude.{◌≡◌, ◌≢◌, ◌+◌, ◌<◌, Err, OnSome};
    ghost use Rattle.ert_effects.specs.{ClockCalls.{TellsTime, TellsOffset, TellsSystemTime}, TimerCalls.{Reads, Cancels, Starts}, WheelCalls.TellsAlive, declared.answers.StartErr.TheVariants.{Full, NoMemory}};
    ghost use Rattle.ert_defs.specs.{States.state, declared.entry.Actor.TheVariants.Caller};
    ghost use Rattle.ert_timers.specs.{Frees.{IsUsedUp, UsesFree}, Searching.{HasOpenSlot, Searches}};
    ghost use Rattle.ert_shard.specs.Shards.{ShardGoes, ShardSteps, ShardBy, IsHome, ShardHasForgotten, ShardStayForgotten};

    /// The number of its scheduler, and of its wheel.
    pub fn number(&self) -> u32
        ensures { result ≡ self.now.share.number }
    {
        self.number
    }

    /// The first of its processes.
    pub fn from(&self) -> u32
        ensures { result ≡ self.now.share.from }
    {
        self.from
    }

    /// The first process after its own.
    pub fn to(&self) -> u32
        ensures { result ≡ self.now.share.to }
    {
        self.to
    }

    /// How many processes the service has: each can be named to `is_alive`.
    pub fn processes(&self) -> u32
        ensures { result ≡ self.now.settings.processes }
    {
        self.desk.settings().processes
    }

    /// Monotonic time, in nanoseconds (`erlang:monotonic_time`). It never falls from one call to a later one.
    pub fn monotonic_time(&mut self) -> i64
        ensures { ShardSteps self.old (ShardBy self.old (λ g. TellsTime g (Caller (self.old.share.number + 1)) result)) self.new }
    {
        let by = Actor::Caller(self.number + 1);
        self.pass.monotonic_time(&self.desk, by)
    }

    /// The time offset, in nanoseconds, with its state (`erlang:time_offset`).
    pub fn time_offset(&mut self) -> (i64, OffsetState)
        ensures { ShardSteps self.old (ShardBy self.old (λ g. TellsOffset g (Caller (self.old.share.number + 1)) result)) self.new }
    {
        let by = Actor::Caller(self.number + 1);
        self.pass.time_offset(&self.desk, by)
    }

    /// System time, in nanoseconds: monotonic time, and then the time offset added (`erlang:system_time`).
    pub fn system_time(&mut self) -> i64
        ensures { ShardSteps self.old (ShardBy self.old (λ g. TellsSystemTime g (Caller (self.old.share.number + 1)) result)) self.new }
    {
        let by = Actor::Caller(self.number + 1);
        self.pass.system_time(&self.desk, by)
    }

    /// Starts a timer on the shard's wheel, for a process of its own (`erlang` module reference, `start_timer` and
    /// `send_after`).
    ///
    /// BadArg comes where the start has no deadline at the time of the call, and Full where each slot of the wheel
    /// that was looked at is taken or rests (`Settings::looks`), or the wheel has had 2^53 timers. A timer for a process
    /// that has exited is started and cancelled at once. No memory is taken.
    #[inline(always)]
    pub fn start(&mut self, start: &Start) -> Result<TimerRef, StartErr>
        requires { IsHome self.old.share start.now.dest }
        ensures call { ShardGoes self.old (ShardBy self.old (λ g. Starts g (self.old.share.number + 1) self.old.share.number start.now result)) self.new }
        ensures memory { result ≢ Err NoMemory }
        ensures full { result ≡ Err Full → IsUsedUp self.old.wheel self.new.wheel }
        ensures searched { result ≡ Err Full → self.old.wheel.arms < 9007199254740992
            → ShardGoes self.old (ShardBy self.old (λ g. Searches g (self.old.share.number + 1) self.old.wheel self.new.wheel)) self.new }
        ensures ready { HasOpenSlot self.old.settings (state self.old.settings self.old.history) self.old.wheel → result ≢ Err Full }
        ensures frees { UsesFree self.old.wheel self.new.wheel result }
        ensures forgotten { ShardStayForgotten self.old self.new }
    {
        self.wheel
            .start(&self.desk, &mut self.pass, self.number + 1, start)
    }

    /// Cancels a timer, of whatever wheel, and answers how many milliseconds were left (`cancel_timer`); None where
    /// the reference names no timer that is armed.
    ///
    /// The shard's own wheel holds no row of a timer that was cancelled so. That of another shard holds its row until
    /// the timer would be due.
    #[inline(always)]
    pub fn cancel_timer(&mut self, timer: TimerRef) -> Option<u64>
        ensures call { ShardSteps self.old (ShardBy self.old (λ g. Cancels g (Caller (self.old.share.number + 1)) timer result)) self.new }
        ensures forgotten { OnSome result (ShardHasForgotten self.new timer) }
    {
        let by = Actor::Caller(self.number + 1);
        let left = self.pass.cancel_timer(&self.desk, by, timer)?;
        if timer.wheel == self.number {
            self.wheel.forget(&self.pass, timer);
        }
        Some(left)
    }

    /// How many milliseconds are left of a timer, of whatever wheel (`read_timer`); None where the reference names
    /// no timer that is armed.
    #[inline]
    pub fn read_timer(&mut self, timer: TimerRef) -> Option<u64>
        ensures { ShardSteps self.old (ShardBy self.old (λ g. Reads g (Caller (self.old.share.number + 1)) timer result)) self.new }
    {
        let by = Actor::Caller(self.number + 1);
        self.pass.read_timer(&self.desk, by, timer)
    }

    /// Whether a process hasn't exited, of whatever shard (`is_process_alive`).
    pub fn is_alive(&mut self, process: u32) -> bool
        requires { process < self.old.settings.processes }
        ensures { ShardSteps self.old (ShardBy self.old (λ g. TellsAlive g (Caller (self.old.share.number + 1)) process result)) self.new }
    {
        let by = Actor::Caller(self.number + 1);
        self.pass.is_alive(&self.desk, by, process)
    }
}

fn crosses<T: Send>(_: &T) {}

/// A shard may go to another thread.
fn _may_cross(shard: &Shard) {
    crosses(shard);
}
