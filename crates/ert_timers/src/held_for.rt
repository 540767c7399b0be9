//! Timers of a process that are held.
use crate::part::WheelPart;
use ert_defs::TimerRef;

impl WheelPart {
    ghost use Rattle.std.specs.Prelude.{◌≡◌, ◌<◌};
    ghost use Rattle.ert_timers.specs.HeldFor.{IsHeldFor};

    /// A timer for a process that is held; None exactly where none is.
    ///
    /// Slots of the chain of the process whose timers were settled leave it, as in a sweep. No entry is made.
    pub fn held_for(&mut self, process: u32) -> Option<TimerRef>
        requires { process < self.old.processes }
        ensures same { self.new ≡ self.old }
        ensures held { IsHeldFor self.old process result }
    {
        let row = self.newest_of(process)?;
        Some(self.timer(row).timer)
    }
}
