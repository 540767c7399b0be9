//! A service from its opening to its closing. What its calls answer is shown by `examples/races`.
ghost use Rattle.std.specs.Arc.{arc_value};
ghost use Rattle.ert_locks.specs.Names.{IsDesk};
ghost use Rattle.ert_world.specs.{Parts.parts_of, Worlds.AreFit};

use crate::examples::{first_timer, handed_timer};
use crate::tests::seats::{are_callers, are_scheds};
use ert_defs::{NoMemory, Settings};
use ert_locks::{CallerSeat, DeskName};
use ert_service::{Opened, Service, Session};
use ert_world::{Parts, World};
use std::alloc::{AllocError, Global};
use std::marker::Brand;
use std::process::Abort;
use std::sync::Wait;

/// Opens a service with these settings, has its last caller start a timer that is then cancelled, and closes it. The number is
/// what was left of the timer.
pub(crate) fn open_and_close<R: Wait + Abort>(
    rt: &R,
    alloc: Global,
    settings: &Settings,
) -> Result<Option<u64>, NoMemory> {
    assert!(rt; settings.check().is_ok());
    let parts = World::open(alloc, settings)?.into_parts();
    try_on::<Brand, R>(rt, alloc, parts)
}

fn try_on<L: DeskName, R: Wait + Abort>(
    rt: &R,
    alloc: Global,
    parts: Parts,
) -> Result<Option<u64>, NoMemory>
    requires desk { IsDesk L.table L.settings (arc_value parts.desk) }
    requires fit { AreFit (arc_value parts.desk) parts.pass 1 (parts_of parts.keeper parts.wheels.items parts.inboxes.items parts.mails.items parts.scheds.items) }
{
    let Opened {
        rest,
        service,
        scheds,
        mut callers,
    } = Service::<L>::open(alloc, parts)?;
    let left = use_seat(rt, &service, &mut callers)?;
    are_scheds(rt, &service, &scheds);
    are_callers(rt, &service, &callers);
    let world = service.close(rest, scheds, callers);
    assert!(rt; world.seats() == 0);
    Ok(left)
}

/// The last caller starts a timer. It is cancelled by the caller before it, to which its name is handed over, and where there
/// is none by the last one itself. The seats come back.
fn use_seat<L: DeskName, R: Wait + Abort>(
    rt: &R,
    service: &Service<L>,
    callers: &mut Vec<CallerSeat<L>>,
) -> Result<Option<u64>, AllocError> {
    let seat = callers.pop().expect(rt, "a caller");
    let mut caller = Session { service, rt, seat };
    let left = match callers.pop() {
        Some(seat) => {
            let mut other = Session { service, rt, seat };
            let left = handed_timer(&mut caller, &mut other);
            callers.push(other.seat)?;
            left
        }
        None => first_timer(&mut caller),
    };
    callers.push(caller.seat)?;
    Ok(left)
}
