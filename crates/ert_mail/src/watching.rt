//! The calls on the monitors of a process (`erlang` module reference, `monitor` with `time_offset`).
ghost use Rattle.std.specs.Prelude.{◌≡◌};

use crate::part::MailPart;
use ert_defs::{Actor, Monitor, NoMemory, has_monitor, notify_monitors, remove_monitor};
use ert_effects::MonitorErr;
use ert_table::{Desk, OffsetCarry, Pass, TimeCarry};

/// The greatest number of monitors that a process can have (profile).
const MOST_MONITORS: usize = 64;

impl MailPart {
    ghost use Rattle.std.specs.Prelude.{◌↔◌, IsTrue, IfOk, OnErr, Err};
    ghost use Rattle.ert_defs.specs.Legal.{stands_in};
    ghost use Rattle.ert_effects.specs.{MailCalls.{Demonitors, Notifies}, declared.answers.MonitorErr.TheVariants.Full};
    ghost use Rattle.ert_table.specs.{Calls.{IsMade, IsMadeIfOk}, Desks.{settings_of, view_of, front_of, Belongs}};
    ghost use Rattle.ert_mail.specs.Mailboxes.{AreMany, IsCallers, IsMonitor, IsSame, MailboxStands};

    /// Makes a monitor of the time offset, which counts the offset of now as told, and answers its number.
    ///
    /// It is refused with Full where 64 monitors stand or the number 4294967295 was given, which is tested
    /// first. After a refusal nothing has changed.
    pub fn monitor(&mut self, desk: &Desk, pass: &mut Pass, by: u32) -> Result<u32, MonitorErr>
        requires belongs { Belongs desk.now pass.old }
        requires holds { IsCallers (settings_of desk.now) (view_of pass.old) by self.old.process }
        requires stands { MailboxStands (settings_of desk.now) (front_of pass.old) self.old }
        ensures belongs { Belongs desk.now pass.new }
        ensures call { IsMonitor (settings_of desk.now) (view_of pass.old) by self.old.process result (view_of pass.new) }
        ensures number { IfOk result (λ number. number ≡ self.old.held.next) }
        ensures full { (result ≡ Err Full) ↔ AreMany self.old.held }
        ensures err { OnErr result (IsSame self.old self.new) }
        ensures queue { self.new.held.queue ≡ self.old.held.queue }
        ensures process { self.new.process ≡ self.old.process }
        ensures stands { MailboxStands (settings_of desk.now) (front_of pass.new) self.new }
    {
        let by = Actor::Caller(by);
        if self.has_many() {
            pass.load_offset(desk, by, &OffsetCarry::Off);
            return Err(MonitorErr::Full);
        }
        if self.monitors.reserve(1).is_err() {
            return Err(MonitorErr::NoMemory);
        }
        let number = self.next as u32;
        let process = self.process;
        let carry = OffsetCarry::Watch {
            process,
            monitor: number,
        };
        let (told, _) = pass.load_offset(desk, by, &carry);
        self.monitors.push_reserved(Monitor { number, told });
        self.next += 1;
        Ok(number)
    }

    /// Whether no further monitor can be made.
    fn has_many(&self) -> bool
        ensures { IsTrue result ↔ AreMany self.now.held }
    {
        self.monitors.len() >= MOST_MONITORS || self.next > u32::MAX as u64
    }

    /// Removes a monitor, and tells whether it stood.
    pub fn demonitor(&mut self, desk: &Desk, pass: &mut Pass, by: u32, monitor: u32) -> bool
        requires belongs { Belongs desk.now pass.old }
        requires holds { IsCallers (settings_of desk.now) (view_of pass.old) by self.old.process }
        requires stands { MailboxStands (settings_of desk.now) (front_of pass.old) self.old }
        ensures belongs { Belongs desk.now pass.new }
        ensures call { IsMade (settings_of desk.now) (view_of pass.old)
            (Demonitors (settings_of desk.now) by self.old.process monitor result) (view_of pass.new) }
        ensures was { result ≡ stands_in monitor self.old.held.monitors }
        ensures queue { self.new.held.queue ≡ self.old.held.queue }
        ensures process { self.new.process ≡ self.old.process }
        ensures stands { MailboxStands (settings_of desk.now) (front_of pass.new) self.new }
    {
        let was = has_monitor(&self.monitors, monitor);
        let process = self.process;
        let carry = TimeCarry::Unwatch {
            process,
            monitor,
            was,
        };
        pass.load_time(desk, Actor::Caller(by), &carry);
        remove_monitor(&mut self.monitors, monitor);
        was
    }

    /// Puts a message for each monitor that the time offset is new to, and answers how many were put.
    ///
    /// If memory runs out, no step was taken.
    pub fn notify(&mut self, desk: &Desk, pass: &mut Pass, by: u32) -> Result<u32, NoMemory>
        requires belongs { Belongs desk.now pass.old }
        requires holds { IsCallers (settings_of desk.now) (view_of pass.old) by self.old.process }
        requires stands { MailboxStands (settings_of desk.now) (front_of pass.old) self.old }
        ensures belongs { Belongs desk.now pass.new }
        ensures call { IsMadeIfOk (settings_of desk.now) (view_of pass.old) (Notifies (settings_of desk.now) by self.old.process) result (view_of pass.new) }
        ensures err { OnErr result (IsSame self.old self.new) }
        ensures process { self.new.process ≡ self.old.process }
        ensures stands { MailboxStands (settings_of desk.now) (front_of pass.new) self.new }
    {
        self.queue.reserve(self.monitors.len())?;
        let process = self.process;
        let (offset, _) = pass.load_offset(desk, Actor::Caller(by), &OffsetCarry::Tell { process });
        Ok(notify_monitors(&mut self.monitors, &mut self.queue, offset) as u32)
    }
}
