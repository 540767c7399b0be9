//! The calls of callers on timers and on the exits of processes. A start and a cancel are always inlined, as
//! `Pass::cancel_timer` is.
use crate::chains::exit;
use crate::world::{CALLER, World};
use ert_defs::{Actor, Start, TimerRef, USES_OF_ROUND};
use ert_effects::Room;
use ert_timers::StartErr;

impl World {
    ghost use Rattle.std.specs.Prelude.{◌≡◌, ◌≢◌, ◌<◌, ◌≤◌, true, false, Err, OnSome};
    ghost use Rattle.ert_effects.specs.{Chains.Exits, RoomCalls.TellsRoom, TimerCalls.{Reads, Cancels, Starts}, WheelCalls.{TellsAlive, MarksExit}, declared.answers.StartErr.TheVariants.{BadArg, Full, NoMemory}};
    ghost use Rattle.ert_defs.specs.{declared.entry.Actor.TheVariants.Caller, States.state, Timers.{is_taken, timer_at}};
    ghost use Rattle.ert_world.specs.{Frees.{IsUsedUpAt, HasOpenSlotAt, SearchesAt, UsesFreeAt}, Restarts.HasNoDeadline, Stepping.Stays, Worlds.{Goes, HasForgotten, StayForgotten, By, HasProcessExited, IsLetGoIn, KeepRows}};

    /// Starts a timer on a wheel (`erlang` module reference, `start_timer` and `send_after`).
    ///
    /// BadArg comes where the start has no deadline at the time of the call, and Full where each slot of the
    /// wheel that was looked at is taken or rests (`Settings::looks`), or the wheel has had 2^53 timers. Right after a look
    /// at the room that found some it isn't Full. A timer for a process that has exited is started and cancelled at once. No
    /// memory is taken.
    #[inline(always)]
    pub fn start(&mut self, wheel: u32, start: &Start) -> Result<TimerRef, StartErr>
        requires wheel { wheel < self.old.settings.schedulers }
        requires dest { start.now.dest < self.old.settings.processes }
        ensures call { Goes self.old (By self.old (λ g. Starts g 0 wheel start.now result)) self.new }
        ensures time { result ≡ Err BadArg → HasNoDeadline self.old start.now }
        ensures memory { result ≢ Err NoMemory }
        ensures full { result ≡ Err Full → IsUsedUpAt self.old self.new wheel }
        ensures searched { result ≡ Err Full → SearchesAt self.old self.new wheel }
        ensures ready { HasOpenSlotAt self.old wheel → result ≢ Err Full }
        ensures frees { UsesFreeAt self.old self.new wheel result }
        ensures forgotten { StayForgotten self.old self.new }
    {
        self.wheels[wheel as usize].start(&self.desk, &mut self.pass, CALLER, start)
    }

    /// Cancels a timer, and answers how many milliseconds were left (`cancel_timer`); None where the
    /// reference names no timer that is armed. Its wheel holds no row of a timer that was cancelled so.
    #[inline(always)]
    pub fn cancel_timer(&mut self, timer: TimerRef) -> Option<u64>
        ensures call { Goes self.old (By self.old (λ g. Cancels g (Caller 0) timer result)) self.new }
        ensures forgotten { OnSome result (HasForgotten self.new timer) }
    {
        // Few timers are of a later round. Of all others the generation is the use of the round itself.
        if timer.generation <= USES_OF_ROUND {
            self.cancel_by_name(timer)
        } else {
            self.cancel_of_later_round(timer.wheel, timer.slot, timer.generation)
        }
    }

    /// The same for a timer of a later round of its slot. Its name comes in parts: so a cancel, which seldom gets here,
    /// needn't write it to memory.
    #[cold]
    #[inline(never)]
    fn cancel_of_later_round(&mut self, wheel: u32, slot: u32, generation: u64) -> Option<u64>
        ensures call { Goes self.old (By self.old (λ g. Cancels g (Caller 0) (timer_at wheel slot generation) result)) self.new }
        ensures forgotten { OnSome result (HasForgotten self.new (timer_at wheel slot generation)) }
    {
        self.cancel_by_name(TimerRef {
            wheel,
            slot,
            generation,
        })
    }

    /// The same for any timer.
    #[inline(always)]
    fn cancel_by_name(&mut self, timer: TimerRef) -> Option<u64>
        ensures call { Goes self.old (By self.old (λ g. Cancels g (Caller 0) timer result)) self.new }
        ensures forgotten { OnSome result (HasForgotten self.new timer) }
    {
        let by = Actor::Caller(CALLER);
        let left = self.pass.cancel_timer(&self.desk, by, timer)?;
        self.wheels[timer.wheel as usize].forget(&self.pass, timer);
        Some(left)
    }

    /// Holds the slot of a timer free whose message was handed over.
    pub(crate) fn reuse(&mut self, timer: TimerRef)
        requires wheel { timer.wheel < self.old.settings.schedulers }
        requires let_go { IsLetGoIn self.old timer }
        requires handed { is_taken ((state self.old.settings self.old.history).status timer) ≡ false }
        ensures history { self.new.history ≡ self.old.history }
        ensures stays { Stays self.old self.new }
        ensures kept { KeepRows self.old self.new }
    {
        self.wheels[timer.wheel as usize].reuse(&self.pass, timer);
    }

    /// How many milliseconds are left of a timer (`read_timer`); None where the reference names no timer
    /// that is armed.
    pub fn read_timer(&mut self, timer: TimerRef) -> Option<u64>
        ensures call { Goes self.old (By self.old (λ g. Reads g (Caller 0) timer result)) self.new }
    {
        self.pass
            .read_timer(&self.desk, Actor::Caller(CALLER), timer)
    }

    /// How many slots of a wheel can take a timer now, and from when on one more can, of those that rest: a slot
    /// rests once it was used 262,143 times in its round, until the deadlines of all its timers have passed.
    ///
    /// By it an embedder sees a full wheel coming, and knows how long to wait then. Where one can take a timer, the next
    /// start on the wheel isn't refused for want of a slot (`Full`). The caller looks at the time and at each slot, so it isn't meant for each start. No
    /// memory is taken.
    pub fn room(&mut self, wheel: u32) -> Room
        requires { wheel < self.old.settings.schedulers }
        ensures call { Goes self.old (By self.old (λ g. TellsRoom g 0 wheel result)) self.new }
        ensures ready { 1 ≤ result.free → HasOpenSlotAt self.new wheel }
    {
        self.wheels[wheel as usize].room(&self.desk, &mut self.pass, CALLER)
    }

    /// Whether a process hasn't exited (`is_process_alive`).
    pub fn is_alive(&mut self, process: u32) -> bool
        requires { process < self.old.settings.processes }
        ensures call { Goes self.old (By self.old (λ g. TellsAlive g (Caller 0) process result)) self.new }
    {
        self.pass
            .is_alive(&self.desk, Actor::Caller(CALLER), process)
    }

    /// Lets a process exit, and tells whether it hadn't before. Its timers stay armed: it is the first step
    /// of `exit`.
    pub fn mark_exit(&mut self, process: u32) -> bool
        requires { process < self.old.settings.processes }
        ensures call { Goes self.old (By self.old (λ g. MarksExit g (Caller 0) process result)) self.new }
        ensures stays { Stays self.old self.new }
        ensures exited { HasProcessExited self.new process }
    {
        self.pass
            .mark_exit(&self.desk, Actor::Caller(CALLER), process)
    }

    /// Lets a process exit, cancels its timers in all wheels, and answers true; false, and no more, where it
    /// had exited before (`exit`).
    pub fn exit(&mut self, process: u32) -> bool
        requires { process < self.old.settings.processes }
        ensures call { Goes self.old (λ way. Exits self.old.settings way 0 process result) self.new }
        ensures stays { Stays self.old self.new }
    {
        exit(self, CALLER, process)
    }
}
