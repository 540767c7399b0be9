//! The parts of a service that is opened.
ghost use Rattle.std.specs.Prelude.{IfOk};
ghost use Rattle.ert_defs.specs.Settings.{IsChecked};
ghost use Rattle.ert_mail.specs.Mailboxes.{IsEmpty};
ghost use Rattle.ert_world.specs.Openings.{AreNew, IsNewWheel, IsNewInbox, IsNewSched};

use ert_defs::{NoMemory, Settings};
use ert_mail::{InboxPart, MailPart};
use ert_timers::{SchedPart, WheelPart};
use std::alloc::Global;

/// The wheels of all schedulers, in order of number: none has a timer.
pub(crate) fn open_wheels(alloc: Global, settings: &Settings) -> Result<Vec<WheelPart>, NoMemory>
    requires { IsChecked settings.now }
    ensures { IfOk result (λ wheels. AreNew (IsNewWheel settings.now) settings.now.schedulers wheels.items) }
{
    let mut wheels = Vec::with_capacity(alloc, settings.schedulers as usize)?;
    for wheel in 0..settings.schedulers {
        wheels.push_reserved(WheelPart::open(alloc, settings, wheel)?);
    }
    Ok(wheels)
}

/// So many inboxes, in order of number: no request waits in one.
pub(crate) fn open_inboxes(alloc: Global, count: u32) -> Result<Vec<InboxPart>, NoMemory>
    ensures { IfOk result (λ inboxes. AreNew IsNewInbox count inboxes.items) }
{
    let mut inboxes = Vec::with_capacity(alloc, count as usize)?;
    for wheel in 0..count {
        inboxes.push_reserved(InboxPart::open(alloc, wheel));
    }
    Ok(inboxes)
}

/// So many mailboxes, in order of number: none has a message or a monitor.
pub(crate) fn open_mails(alloc: Global, count: u32) -> Result<Vec<MailPart>, NoMemory>
    ensures { IfOk result (λ mails. AreNew IsEmpty count mails.items) }
{
    let mut mails = Vec::with_capacity(alloc, count as usize)?;
    for process in 0..count {
        mails.push_reserved(MailPart::open(alloc, process));
    }
    Ok(mails)
}

/// So many schedulers, in order of number: none has a request in its hand or an expired timer.
pub(crate) fn open_scheds(alloc: Global, count: u32) -> Result<Vec<SchedPart>, NoMemory>
    ensures { IfOk result (λ scheds. AreNew IsNewSched count scheds.items) }
{
    let mut scheds = Vec::with_capacity(alloc, count as usize)?;
    for wheel in 0..count {
        scheds.push_reserved(SchedPart::open(alloc, wheel));
    }
    Ok(scheds)
}
