//! The clock's part behind its lock.
use crate::locked::Locked;
use crate::names::DeskName;
use crate::seats::CallerSeat;
use ert_clock::{ClockErr, Moved};
use ert_defs::{OffsetState, Reading};
use ert_table::{Desk, KeeperPart};
use std::marker::Brand;

impl<L: DeskName> Locked<KeeperPart, L> {
    ghost use Rattle.std.specs.Prelude.{◌≡◌};
    ghost use Rattle.ert_effects.specs.ClockCalls.{Ticks, Finalizes};
    ghost use Rattle.ert_defs.specs.declared.entry.Actor.TheVariants.{Keeper, Caller};
    ghost use Rattle.ert_locks.specs.{Names.IsDesk, Passes.StepsWith};

    /// Takes one reading of the OS clocks for a caller. `force` asks for a check of the clock.
    ///
    /// It is refused where the clock refuses it (`ClockErr`), and then it makes no entry.
    #[tactic(auto, using(crate::proofs::Own::ticks_have))]
    pub fn tick(
        &mut self,
        desk: &Desk,
        seat: &mut CallerSeat<L>,
        reading: Reading,
        force: bool,
    ) -> Result<Moved, ClockErr>
        requires desk { IsDesk L.table L.settings desk.now }
        ensures number { seat.new.number ≡ seat.old.number }
        ensures call { StepsWith L.settings (Caller seat.old.number) Keeper (Ticks L.settings seat.old.number reading force result) seat.old.pass seat.new.pass }
    {
        self.lend::<Brand, _, _, _>(desk, &mut seat.number, &mut seat.pass, |part, pass, by| {
            part.tick(desk, pass, *by, reading, force)
        })
    }

    /// Finalizes the time offset for a caller (`erlang:system_flag(time_offset, finalize)`), and answers the
    /// state before. Only a preliminary offset moves.
    ///
    /// It is refused where the clock refuses it (`ClockErr`), and then it makes no entry.
    #[tactic(auto, using(crate::proofs::Own::finalizes_have, crate::proofs::Least::reads_by))]
    pub fn finalize(
        &mut self,
        desk: &Desk,
        seat: &mut CallerSeat<L>,
        reading: Reading,
    ) -> Result<(OffsetState, Moved), ClockErr>
        requires desk { IsDesk L.table L.settings desk.now }
        ensures number { seat.new.number ≡ seat.old.number }
        ensures call { StepsWith L.settings (Caller seat.old.number) Keeper (Finalizes L.settings seat.old.number reading result) seat.old.pass seat.new.pass }
    {
        self.lend::<Brand, _, _, _>(desk, &mut seat.number, &mut seat.pass, |part, pass, by| {
            part.finalize(desk, pass, *by, reading)
        })
    }
}
