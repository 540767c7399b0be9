//! Timers of processes that have exited.
use crate::part::WheelPart;
use ert_defs::TimerRef;
use ert_table::{Desk, Pass};

impl WheelPart {
    ghost use Rattle.std.specs.Prelude.{◌≡◌, ◌≢◌, ◌<◌, false, true, Some};
    ghost use Rattle.ert_effects.specs.WheelCalls.{Sweeps, IsSwept};
    ghost use Rattle.ert_defs.specs.{States.state, Timers.is_taken, declared.settings.Settings.Settings, declared.timer.Status.TheVariants.Armed};
    ghost use Rattle.ert_table.specs.{Desks.{settings_of, view_of, front_of, Belongs}, Calls.IsMade};
    ghost use Rattle.ert_timers.specs.{Changes.{given_back, reused}, Freeing.{IsHeld, IsLast, IsLetGo}, Frees.FreesRows, Parts.{HoldsCaller, PartStands}, Passed.LosesRows, Sweeping.SweepsHeld};

    /// Cancels all timers of a process that has exited, and holds those of their slots free whose rounds have uses
    /// left.
    ///
    /// It does work for the timers of that process alone, for those that were settled only where their slots were
    /// not used again, and for each of them once. It takes no memory.
    pub fn sweep(&mut self, desk: &Desk, pass: &mut Pass, by: u32, process: u32)
        requires belongs { Belongs desk.now pass.old }
        requires holds { HoldsCaller (settings_of desk.now) (view_of pass.old) by self.old.number }
        requires stands { PartStands (settings_of desk.now) (front_of pass.old) self.old }
        requires in_range { process < (settings_of desk.now).processes }
        requires exited { (state (settings_of desk.now) (front_of pass.old)).exited process ≡ true }
        ensures belongs { Belongs desk.now pass.new }
        ensures number { self.new.number ≡ self.old.number }
        ensures stands { PartStands (settings_of desk.now) (front_of pass.new) self.new }
        ensures call { IsMade (settings_of desk.now) (view_of pass.old) (Sweeps (settings_of desk.now) by self.old.number process) (view_of pass.new) }
        ensures held { IsMade (settings_of desk.now) (view_of pass.old) (SweepsHeld by self.old) (view_of pass.new) }
        ensures loses { LosesRows self.old self.new }
        ensures frees { FreesRows self.old self.new }
        ensures swept { IsSwept (state (settings_of desk.now) (front_of pass.new)) self.old.number process }
    {
        while let Some(row) = self.newest_of(process) {
            let timer = self.timer(row);
            self.orphan(desk, pass, by, timer.timer, timer.deadline);
        }
    }

    /// Drops the row of a timer that the pass has seen settled, where the row is held, and holds its slot
    /// free where the slot's round has uses left. So a start that follows finds the slot at once.
    ///
    /// The timer is the last of its slot, as each is that a cancel hit since the part stood. It makes no entry, takes
    /// no memory, and reads neither key nor what is kept of the slot.
    #[inline]
    pub fn forget(&mut self, pass: &Pass, timer: TimerRef)
        requires stands { (g : Settings) → (view_of pass.now).settings ≡ Some g → PartStands g (front_of pass.now) self.old }
        requires last { IsLast self.old timer }
        requires settled { (g : Settings) → (view_of pass.now).settings ≡ Some g → (state g (front_of pass.now)).status timer ≢ Some Armed }
        ensures number { self.new.number ≡ self.old.number }
        ensures stands { (g : Settings) → (view_of pass.now).settings ≡ Some g → PartStands g (front_of pass.now) self.new }
        ensures forgotten { IsHeld self.new timer → ⊥ }
        ensures loses { LosesRows self.old self.new }
        ensures held { IsHeld self.old timer → self.new ≡ given_back self.old timer.slot false }
        ensures away { (IsHeld self.old timer → ⊥) → self.new ≡ self.old }
    {
        // For the prover alone: what is known of a pass is known of one that is read.
        let _seen = pass;
        if self.drop_row(timer.slot) {
            self.free_after(timer);
        }
    }

    /// Holds the slot of an expired timer free whose message was handed over, where the slot's round has uses left.
    /// So a start that follows finds the slot, and needn't look at every one.
    ///
    /// The timer was the first of its scheduler's expired ones, and takes its slot no more. It makes no entry,
    /// and takes no memory.
    #[inline]
    pub fn reuse(&mut self, pass: &Pass, timer: TimerRef)
        requires stands { (g : Settings) → (view_of pass.now).settings ≡ Some g → PartStands g (front_of pass.now) self.old }
        requires let_go { IsLetGo self.old timer }
        requires handed { (g : Settings) → (view_of pass.now).settings ≡ Some g → is_taken ((state g (front_of pass.now)).status timer) ≡ false }
        ensures number { self.new.number ≡ self.old.number }
        ensures stands { (g : Settings) → (view_of pass.now).settings ≡ Some g → PartStands g (front_of pass.now) self.new }
        ensures freed { self.new ≡ reused self.old timer.slot }
    {
        // For the prover alone, as in `forget`.
        let _handed = pass;
        self.free_after(timer);
    }
}
