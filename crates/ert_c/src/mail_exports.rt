//! The exported calls on mailboxes, requests and monitors.
ghost use Rattle.std.specs.Prelude.{⊤, length};
ghost use Rattle.ert_c.specs.{Calls.{AtProcess, AnswersAtProcess, PutsRequest, TakesBy, MonitorsBy, DemonitorsBy, NotifiesBy}, Told.{IsTakeTold, IsMonitorTold, IsDemonitored, IsNumber}, Mailing.{FindsMailBy, IsNextTold, TakesSomeBy}};
ghost use Rattle.ert_c.specs.{Mailing.{IsTookSome, ChangesRoom}, Through.{Through, AnswersThrough}};

use crate::handle::{ErtWorld, at_process, opened};
use crate::mail_calls::{
    ErtMail, ErtRequest, request_kind_at, take_places, tell_demonitored, tell_done, tell_end,
    tell_monitored, tell_next, tell_taken,
};
use crate::status::{BAD_KIND, CLOSED, RANGE};
use crate::turn_calls::tell;

/// Asks the scheduler of a timer to cancel or to read it.
#[unsafe(no_mangle)]
pub extern "C" fn ert_world_ask(world: &mut ErtWorld, request: &ErtRequest) -> i32
    ensures { PutsRequest request.now world.old.place.value result world.new.place.value }
{
    let service = opened!(world);
    let Some(kind) = request_kind_at(request.kind) else {
        return BAD_KIND;
    };
    if request.reply_to >= service.settings().processes {
        return RANGE;
    }
    let answer = service.ask(request.with_kind(kind));
    tell_done(answer)
}

/// Takes the first message of a process.
#[unsafe(no_mangle)]
pub extern "C" fn ert_world_take(world: &mut ErtWorld, process: u32, mail: &mut ErtMail) -> i32
    ensures { AnswersAtProcess process (TakesBy process) IsTakeTold mail.old mail.new world.old.place.value result world.new.place.value }
{
    let service = at_process!(world, process);
    let answer = service.take(process);
    tell_taken(answer, mail)
}

/// Takes the first messages of a process, as many as there is room for at most.
#[unsafe(no_mangle)]
pub extern "C" fn ert_world_take_some(
    world: &mut ErtWorld,
    process: u32,
    mails: &mut [ErtMail],
    count: &mut usize,
) -> i32
    ensures { AnswersAtProcess process (TakesSomeBy process (length mails.old)) IsTookSome (mails.old, count.old) (mails.new, count.new)
        world.old.place.value result world.new.place.value }
{
    let service = at_process!(world, process);
    let (taken, ended) = take_places(service, process, mails);
    *count = taken;
    tell_end(ended)
}

/// Tells a process that hasn't exited and has mail.
#[unsafe(no_mangle)]
pub extern "C" fn ert_world_next_mail(world: &mut ErtWorld, process: &mut u32) -> i32
    ensures { AnswersThrough FindsMailBy IsNextTold process.old process.new world.old.place.value result world.new.place.value }
{
    let answer = opened!(world).next_mail();
    tell_next(answer, process)
}

/// Makes room in the mailbox of a process for so many more messages.
#[unsafe(no_mangle)]
pub extern "C" fn ert_world_reserve_mail(world: &mut ErtWorld, process: u32, count: usize) -> i32
    ensures { ChangesRoom process world.old.place.value result world.new.place.value }
{
    let service = at_process!(world, process);
    let answer = service.reserve_mail(process, count);
    tell_done(answer)
}

/// Gives back the memory of the mailbox of a process that its messages don't need.
#[unsafe(no_mangle)]
pub extern "C" fn ert_world_shrink_mail(world: &mut ErtWorld, process: u32) -> i32
    ensures { ChangesRoom process world.old.place.value result world.new.place.value }
{
    let service = at_process!(world, process);
    let answer = service.shrink_mail(process);
    tell_done(answer)
}

/// Makes a monitor of the time offset for a process.
#[unsafe(no_mangle)]
pub extern "C" fn ert_world_monitor(world: &mut ErtWorld, process: u32, monitor: &mut u32) -> i32
    ensures { AnswersAtProcess process (MonitorsBy process) IsMonitorTold monitor.old monitor.new world.old.place.value result world.new.place.value }
{
    let service = at_process!(world, process);
    let answer = service.monitor(process);
    tell_monitored(answer, monitor)
}

/// Notifies a process of the time offset, where it is news.
#[unsafe(no_mangle)]
pub extern "C" fn ert_world_notify(world: &mut ErtWorld, process: u32, told: &mut u32) -> i32
    ensures { AnswersAtProcess process (NotifiesBy process) IsNumber told.old told.new world.old.place.value result world.new.place.value }
{
    let service = at_process!(world, process);
    let answer = service.notify(process);
    tell(answer, told)
}

/// Removes a monitor.
#[unsafe(no_mangle)]
pub extern "C" fn ert_world_demonitor(world: &mut ErtWorld, process: u32, monitor: u32) -> i32
    ensures { Through ⊤ (AtProcess process (DemonitorsBy process monitor) (λ answer. IsDemonitored answer result) result ⊤)
        world.old.place.value result world.new.place.value }
{
    let service = at_process!(world, process);
    let answer = service.demonitor(process, monitor);
    tell_demonitored(answer)
}
