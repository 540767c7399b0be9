//! Rows whose timers others have settled.
ghost use Rattle.std.specs.Prelude.{◌≡◌};
ghost use Rattle.ert_defs.specs.Laws as laws;
ghost use Rattle.ert_timers.specs.Starting.{status_shown};

use crate::part::WheelPart;
use ert_defs::Status;
use ert_table::{Desk, Pass};

impl WheelPart {
    ghost use Rattle.std.specs.Prelude.{◌≡◌, ◌<◌, length};
    ghost use Rattle.ert_defs.specs.States.{state};
    ghost use Rattle.ert_table.specs.{Desks.{settings_of, view_of, front_of, actors_of, Belongs}, Held.IsWhole};
    ghost use Rattle.ert_timers.specs.{Dropping.{DropsRow, DropsRows}, Frees.FreesRows, Parts.PartStands, Passed.LosesRows, Tidy.IsTidy};

    /// Drops the rows of the timers that others have cancelled, with the pass that holds every actor, and holds
    /// those of their slots free whose rounds have uses left. Then the part is tidy: each timer that it holds is armed.
    ///
    /// It loads the word of every slot that has a row, once and in order. It makes no entry, and takes no memory.
    pub fn drop_settled(&mut self, desk: &Desk, pass: &mut Pass)
        requires belongs { Belongs desk.now pass.old }
        requires whole { IsWhole (settings_of desk.now) (actors_of pass.old) }
        requires stands { PartStands (settings_of desk.now) (front_of pass.old) self.old }
        ensures belongs { Belongs desk.now pass.new }
        ensures same { view_of pass.new ≡ view_of pass.old }
        ensures stands { PartStands (settings_of desk.now) (front_of pass.old) self.new }
        ensures loses { LosesRows self.old self.new }
        ensures frees { FreesRows self.old self.new }
        ensures tidy { IsTidy (state (settings_of desk.now) (front_of pass.old)) self.new }
    {
        for slot in 0..self.slot_count() {
            self.drop_settled_row(desk, pass, slot);
        }
    }

    /// Looks at a slot where it has a row. Where the timer isn't armed any more its row goes, and its slot is
    /// held free where its round has uses left.
    fn drop_settled_row(&mut self, desk: &Desk, pass: &mut Pass, slot: u32)
        requires belongs { Belongs desk.now pass.old }
        requires whole { IsWhole (settings_of desk.now) (actors_of pass.old) }
        requires stands { PartStands (settings_of desk.now) (front_of pass.old) self.old }
        requires low { slot < length self.old.slots }
        ensures belongs { Belongs desk.now pass.new }
        ensures same { view_of pass.new ≡ view_of pass.old }
        ensures drops { DropsRow (settings_of desk.now) (front_of pass.old) self.old self.new slot }
    {
        let Some(row) = self.row(slot) else {
            return;
        };
        let shown = pass.see_timer(desk, self.number(), slot);
        if is_armed(shown) {
            return;
        }
        self.forget(pass, self.timer(row).timer);
    }
}

/// Whether the last timer of a slot is armed, by what the slot shows.
pub(crate) fn is_armed(shown: Option<(Status, u64, u64)>) -> bool
    ensures { result ≡ laws.is_armed (status_shown shown) }
{
    matches!(shown, Some((Status::Armed, _, _)))
}
