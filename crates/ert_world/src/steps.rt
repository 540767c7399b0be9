//! The single steps of schedulers and of callers, of which the chains are made.
ghost use Rattle.std.specs.Prelude.{◌≡◌, ◌<◌, ◌≤◌, ℕ, true, List, [], ◌∷◌, Some, length, IfOk, OnOk};
ghost use Rattle.ert_effects.specs.{Chains.{HoldsRequest, AdvancesWheel, Hands, SweepsWheel}, RequestCalls.Answers, Ways.{Way, Grows}, WheelCalls.MarksExit};
ghost use Rattle.ert_defs.specs.{Mails.{first_of, others_of}, States.state, declared.entry.Actor.TheVariants.{Caller, MailOf}, declared.entry.Entry.Entry, declared.settings.Settings.Settings, declared.settings.TheConstants.MOST_SLOTS};

use ert_defs::{NoMemory, Request, TimerRow};
use ert_mail::Handed;

/// What makes the single steps of schedulers: a world, or a service with the seat of a scheduler.
pub trait SchedSteps {
    /// The settings of the desk.
    ghost settings: { Self → Settings };

    /// The history that it knows.
    ghost history: { Self → List Entry };

    /// That this is legal.
    ghost is_legal: { Self → Type 0 };

    /// What tells beside whom it steps, as how many seats were given out.
    ghost mark: { Self → ℕ };

    /// How its steps come about, by settings, mark and scheduler.
    ghost way: { Settings → ℕ → ℕ → Way };

    /// Whether it makes the steps of a scheduler.
    ghost acts: { Self → ℕ → Type 0 };

    /// What every step leaves as it is.
    ghost stays: { Self → Self → Type 0 };

    /// That the wheel of a scheduler holds no row that is due by a time.
    ghost passed: { Self → ℕ → ℕ → Type 0 };

    /// The request in a scheduler's hand. Where the hand is empty, the first of the inbox is taken into it.
    fn hold(&mut self, sched: u32) -> Option<Request>
        requires { acts self.old sched }
        ensures call { Grows (HoldsRequest (settings self.old) (way (settings self.old) (mark self.old) sched) sched result) (history self.old) (history self.new) }
        ensures legal { is_legal self.new }
        ensures hand { ((state (settings self.new) (history self.new)).scheds sched).hand ≡ result }
        ensures stays { stays self.old self.new };

    /// Answers the request in the hand, and empties that.
    fn answer_held(&mut self, sched: u32, request: &Request) -> Result<Option<u64>, NoMemory>
        requires acts { acts self.old sched }
        requires hand { ((state (settings self.old) (history self.old)).scheds sched).hand ≡ Some request.now }
        ensures call { Grows (way (settings self.old) (mark self.old) sched (MailOf request.now.reply_to ∷ []) (Answers (settings self.old) sched request.now result)) (history self.old) (history self.new) }
        ensures legal { is_legal self.new }
        ensures stays { stays self.old self.new };

    /// Lets every timer of the scheduler's wheel expire that is due.
    fn advance_wheel(&mut self, sched: u32) -> Result<(u64, u32), NoMemory>
        requires { acts self.old sched }
        ensures call { Grows (AdvancesWheel (settings self.old) (way (settings self.old) (mark self.old) sched) sched result) (history self.old) (history self.new) }
        ensures passed { IfOk result (λ answer. passed self.new sched answer.0) }
        ensures legal { is_legal self.new }
        ensures stays { stays self.old self.new };

    /// The scheduler's first expired timer.
    fn first_of_expired(&self, sched: u32) -> Option<TimerRow>
        requires { acts self.now sched }
        ensures first { result ≡ first_of ((state (settings self.now) (history self.now)).scheds sched).expired }
        ensures legal { is_legal self.now }
        ensures few { length ((state (settings self.now) (history self.now)).scheds sched).expired ≤ MOST_SLOTS };

    /// Hands over the scheduler's first expired timer.
    fn hand_first(&mut self, sched: u32, expired: &TimerRow) -> Result<Handed, NoMemory>
        requires acts { acts self.old sched }
        requires first { first_of ((state (settings self.old) (history self.old)).scheds sched).expired ≡ Some expired.now }
        ensures call { Grows (Hands (settings self.old) (way (settings self.old) (mark self.old) sched) sched result) (history self.old) (history self.new) }
        ensures legal { is_legal self.new }
        ensures expired { OnOk result (((state (settings self.new) (history self.new)).scheds sched).expired ≡ others_of ((state (settings self.old) (history self.old)).scheds sched).expired) }
        ensures stays { stays self.old self.new };

    ghost same_settings: { (a b : Self) → stays a b → settings b ≡ settings a };

    ghost same_mark: { (a b : Self) → stays a b → mark b ≡ mark a };

    ghost acts_on: { (a b : Self) (sched : ℕ) → stays a b → acts a sched → acts b sched };

    ghost still_passed: { (a b : Self) (sched to : ℕ) → stays a b → passed a sched to → passed b sched to };

    ghost stay: { (a b c : Self) → stays a b → stays b c → stays a c };

    ghost same: { (a : Self) → stays a a };
}

/// What makes the single steps of callers in an exit: a world, or a service with the seat of a caller.
pub trait CallerSteps {
    /// Whether it makes the steps of a caller.
    ghost acts: { Self → ℕ → Type 0 };

    /// The settings of the desk.
    ghost settings: { Self → Settings };

    /// The history that it knows.
    ghost history: { Self → List Entry };

    /// That this is legal.
    ghost is_legal: { Self → Type 0 };

    /// What tells beside whom it steps, as how many seats were given out.
    ghost mark: { Self → ℕ };

    /// How its steps come about, by settings, mark and caller.
    ghost way: { Settings → ℕ → ℕ → Way };

    /// What every step leaves as it is.
    ghost stays: { Self → Self → Type 0 };

    /// How many schedulers there are.
    fn schedulers(&self) -> u32
        ensures { result ≡ (settings self.now).schedulers };

    /// Lets a process exit, and tells whether it hadn't before.
    fn mark_exited(&mut self, by: u32, process: u32) -> bool
        requires acts { acts self.old by }
        requires in_range { process < (settings self.old).processes }
        ensures call { Grows (way (settings self.old) (mark self.old) by [] (MarksExit (settings self.old) (Caller by) process result)) (history self.old) (history self.new) }
        ensures legal { is_legal self.new }
        ensures exited { (state (settings self.new) (history self.new)).exited process ≡ true }
        ensures stays { stays self.old self.new };

    /// Cancels the timers of a process that has exited, in one wheel.
    fn sweep_wheel(&mut self, by: u32, process: u32, wheel: u32)
        requires acts { acts self.old by }
        requires wheel { wheel < (settings self.old).schedulers }
        requires in_range { process < (settings self.old).processes }
        requires exited { (state (settings self.old) (history self.old)).exited process ≡ true }
        ensures call { Grows (SweepsWheel (settings self.old) (way (settings self.old) (mark self.old) by) by process wheel) (history self.old) (history self.new) }
        ensures legal { is_legal self.new }
        ensures exited { (state (settings self.new) (history self.new)).exited process ≡ true }
        ensures stays { stays self.old self.new };

    ghost same_settings: { (a b : Self) → stays a b → settings b ≡ settings a };

    ghost same_mark: { (a b : Self) → stays a b → mark b ≡ mark a };

    ghost acts_on: { (a b : Self) (by : ℕ) → stays a b → acts a by → acts b by };

    ghost stay: { (a b c : Self) → stays a b → stays b c → stays a c };

    ghost same: { (a : Self) → stays a a };
}
