//! The calls of callers on inboxes and mailboxes.
#![tactic(auto, using(crate::proofs::LegalFronts::legal_front))]

use crate::session::CallerSession;
use ert_defs::{NoMemory, Request};
use ert_locks::DeskName;
use ert_mail::{MonitorErr, Taken};
use std::sync::Wait;

impl<'a, L: DeskName, R: Wait> CallerSession<'a, L, R> {
    ghost use Rattle.std.specs.Prelude.{◌≡◌, ◌<◌};
    ghost use Rattle.ert_effects.specs.{MailCalls.{Takes, Monitors, Demonitors, Notifies}, RequestCalls.{Asks, inbox_for}};
    ghost use Rattle.ert_defs.specs.declared.entry.Actor.TheVariants.{Inbox, MailOf, Caller};
    ghost use Rattle.ert_locks.specs.Passes.{StepsWith};
    ghost use Rattle.ert_service.specs.Fronts.{IsLegal};
    ghost use Rattle.ert_table.specs.Desks.{front_of};

    /// Asks the scheduler of a timer to cancel or to read it (`erlang` module reference, `cancel_timer` and
    /// `read_timer`, option `async`). A reference of no wheel goes to the first scheduler.
    ///
    /// If memory runs out, nothing has changed.
    pub fn ask(&mut self, request: Request) -> Result<(), NoMemory>
        requires { request.reply_to < L.settings.processes }
        ensures call { StepsWith L.settings (Caller self.old.seat.number) (Inbox (inbox_for L.settings request))
            (Asks L.settings self.old.seat.number (inbox_for L.settings request) request result) self.old.seat.pass self.new.seat.pass }
        ensures number { self.new.seat.number ≡ self.old.seat.number }
        ensures legal { IsLegal L.settings (front_of self.new.seat.pass) }
    {
        let wheel = request.inbox(self.service.settings());
        let mut inbox = self.service.inboxes.at(self.rt, wheel);
        inbox.ask(self.service.desk(), &mut self.seat, request)
    }

    /// Takes the first message of a process (`receive`): Exited where the process has exited, whatever it
    /// has, and Empty where it has none.
    pub fn take(&mut self, process: u32) -> Taken
        requires { process < L.settings.processes }
        ensures call { StepsWith L.settings (Caller self.old.seat.number) (MailOf process) (Takes L.settings self.old.seat.number process result) self.old.seat.pass self.new.seat.pass }
        ensures number { self.new.seat.number ≡ self.old.seat.number }
        ensures legal { IsLegal L.settings (front_of self.new.seat.pass) }
    {
        let mut mailbox = self.service.mails.at(self.rt, process);
        mailbox.take(self.service.desk(), &mut self.seat)
    }

    /// Makes a monitor of the time offset for a process (`erlang` module reference, `monitor`, type
    /// `time_offset`), and gives its number.
    ///
    /// Full comes where 64 monitors of the process stand, or its last number was given. After a refusal
    /// nothing has changed.
    pub fn monitor(&mut self, process: u32) -> Result<u32, MonitorErr>
        requires { process < L.settings.processes }
        ensures call { StepsWith L.settings (Caller self.old.seat.number) (MailOf process) (Monitors L.settings self.old.seat.number process result) self.old.seat.pass self.new.seat.pass }
        ensures number { self.new.seat.number ≡ self.old.seat.number }
        ensures legal { IsLegal L.settings (front_of self.new.seat.pass) }
    {
        let mut mailbox = self.service.mails.at(self.rt, process);
        mailbox.monitor(self.service.desk(), &mut self.seat)
    }

    /// Removes a monitor (`demonitor`), and tells whether it stood.
    pub fn demonitor(&mut self, process: u32, monitor: u32) -> bool
        requires { process < L.settings.processes }
        ensures call { StepsWith L.settings (Caller self.old.seat.number) (MailOf process)
            (Demonitors L.settings self.old.seat.number process monitor result) self.old.seat.pass self.new.seat.pass }
        ensures number { self.new.seat.number ≡ self.old.seat.number }
        ensures legal { IsLegal L.settings (front_of self.new.seat.pass) }
    {
        let mut mailbox = self.service.mails.at(self.rt, process);
        mailbox.demonitor(self.service.desk(), &mut self.seat, monitor)
    }

    /// Notifies a process of the time offset by one message for each monitor to which it is news, and answers how
    /// many there were (ERTS User's Guide, "Time Warp Modes": `CHANGE` messages).
    ///
    /// If memory runs out, nothing has changed.
    pub fn notify(&mut self, process: u32) -> Result<u32, NoMemory>
        requires { process < L.settings.processes }
        ensures call { StepsWith L.settings (Caller self.old.seat.number) (MailOf process) (Notifies L.settings self.old.seat.number process result) self.old.seat.pass self.new.seat.pass }
        ensures number { self.new.seat.number ≡ self.old.seat.number }
        ensures legal { IsLegal L.settings (front_of self.new.seat.pass) }
    {
        let mut mailbox = self.service.mails.at(self.rt, process);
        mailbox.notify(self.service.desk(), &mut self.seat)
    }
}
