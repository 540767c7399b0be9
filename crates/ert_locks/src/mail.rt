//! A mailbox behind its lock.
use crate::locked::Locked;
use crate::names::DeskName;
use crate::seats::CallerSeat;
use ert_defs::NoMemory;
use ert_mail::{MailPart, MonitorErr, Taken};
use ert_table::Desk;
use std::marker::Brand;

mod handing;

impl<L: DeskName> Locked<MailPart, L> {
    ghost use Rattle.std.specs.Prelude.{◌≡◌};
    ghost use Rattle.ert_effects.specs.MailCalls.{Takes, Monitors, Demonitors, Notifies};
    ghost use Rattle.ert_defs.specs.declared.entry.Actor.TheVariants.{MailOf, Caller};
    ghost use Rattle.ert_locks.specs.{Names.IsDesk, Passes.StepsWith};

    /// Takes the first message for a caller (`receive`): Exited where the process has exited, whatever it
    /// has, and Empty where it has none.
    #[tactic(auto, using(crate::proofs::Own::takes_have))]
    pub fn take(&mut self, desk: &Desk, seat: &mut CallerSeat<L>) -> Taken
        requires desk { IsDesk L.table L.settings desk.now }
        ensures same { self.new ≡ self.old }
        ensures number { seat.new.number ≡ seat.old.number }
        ensures call { StepsWith L.settings (Caller seat.old.number) (MailOf self.old) (Takes L.settings seat.old.number self.old result) seat.old.pass seat.new.pass }
    {
        self.lend::<Brand, _, _, _>(desk, &mut seat.number, &mut seat.pass, |part, pass, by| {
            part.take(desk, pass, *by)
        })
    }

    /// Makes a monitor of the time offset (`erlang` module reference, `monitor`, type `time_offset`), and
    /// gives its number.
    ///
    /// Full comes where 64 monitors of the process stand, or its last number was given. After a refusal
    /// nothing has changed.
    #[tactic(auto, using(crate::proofs::Own::monitors_have, ert_mail::proofs::Watchings::monitor_made))]
    pub fn monitor(&mut self, desk: &Desk, seat: &mut CallerSeat<L>) -> Result<u32, MonitorErr>
        requires desk { IsDesk L.table L.settings desk.now }
        ensures same { self.new ≡ self.old }
        ensures number { seat.new.number ≡ seat.old.number }
        ensures call { StepsWith L.settings (Caller seat.old.number) (MailOf self.old) (Monitors L.settings seat.old.number self.old result) seat.old.pass seat.new.pass }
    {
        self.lend::<Brand, _, _, _>(desk, &mut seat.number, &mut seat.pass, |part, pass, by| {
            part.monitor(desk, pass, *by)
        })
    }

    /// Removes a monitor (`demonitor`), and tells whether it stood.
    #[tactic(auto, using(crate::proofs::Own::demonitors_have))]
    pub fn demonitor(&mut self, desk: &Desk, seat: &mut CallerSeat<L>, monitor: u32) -> bool
        requires desk { IsDesk L.table L.settings desk.now }
        ensures same { self.new ≡ self.old }
        ensures number { seat.new.number ≡ seat.old.number }
        ensures call { StepsWith L.settings (Caller seat.old.number) (MailOf self.old)
            (Demonitors L.settings seat.old.number self.old monitor result) seat.old.pass seat.new.pass }
    {
        self.lend::<Brand, _, _, _>(desk, &mut seat.number, &mut seat.pass, |part, pass, by| {
            part.demonitor(desk, pass, *by, monitor)
        })
    }

    /// Notifies the process of the time offset by one message for each monitor to which it is news, and answers
    /// how many there were (ERTS User's Guide, "Time Warp Modes": `CHANGE` messages).
    ///
    /// If memory runs out, nothing has changed.
    #[tactic(auto, using(crate::proofs::Own::notifies_have, ert_table::proofs::Makings::if_ok_made))]
    pub fn notify(&mut self, desk: &Desk, seat: &mut CallerSeat<L>) -> Result<u32, NoMemory>
        requires desk { IsDesk L.table L.settings desk.now }
        ensures same { self.new ≡ self.old }
        ensures number { seat.new.number ≡ seat.old.number }
        ensures call { StepsWith L.settings (Caller seat.old.number) (MailOf self.old) (Notifies L.settings seat.old.number self.old result) seat.old.pass seat.new.pass }
    {
        self.lend::<Brand, _, _, _>(desk, &mut seat.number, &mut seat.pass, |part, pass, by| {
            part.notify(desk, pass, *by)
        })
    }
}
