//! The exported calls that give a timer a new deadline, tell how much waits, and hand over so much at most.
ghost use Rattle.std.specs.Prelude.{◌≡◌};
ghost use Rattle.ert_c.specs.{Calls.{AnswersAtProcess, AnswersAtSched}, Told.{timer_from_c, start_of}, Waiting.{RestartsBy, TellsHeld, TellsExpired, TellsMail, TurnsSomeBy, IsRestarted, IsCount, IsTurnedSome}};

use crate::handle::{ErtWorld, at_process, at_sched, opened};
use crate::status::{CLOSED, RANGE};
use crate::timer_calls::{ErtStart, ErtTimer};
use crate::waiting_calls::{ErtTurnedSome, tell_count, tell_restarted, tell_turned_some};

/// Gives an armed timer a new deadline, and its new name to C.
#[unsafe(no_mangle)]
pub extern "C" fn ert_world_restart(
    world: &mut ErtWorld,
    timer: &mut ErtTimer,
    start: &ErtStart,
) -> i32
    ensures { AnswersAtProcess start.now.dest (RestartsBy (timer_from_c timer.old) (start_of start.now)) IsRestarted timer.old timer.new
        world.old.place.value result world.new.place.value }
{
    let process = start.dest;
    let service = at_process!(world, process);
    let answer = service.restart(timer.read(), &start.read());
    tell_restarted(answer, timer)
}

/// Tells how many timers the wheel of a scheduler holds.
#[unsafe(no_mangle)]
pub extern "C" fn ert_world_held(world: &mut ErtWorld, sched: u32, held: &mut u64) -> i32
    ensures { AnswersAtSched sched (TellsHeld sched) (λ answer _. IsCount answer) held.old held.new world.old.place.value result world.new.place.value }
{
    let service = at_sched!(world, sched);
    let answer = service.held(sched);
    tell_count(answer, held)
}

/// Tells how many expired timers of a scheduler wait to be handed over.
#[unsafe(no_mangle)]
pub extern "C" fn ert_world_expired(world: &mut ErtWorld, sched: u32, expired: &mut u64) -> i32
    ensures { AnswersAtSched sched (TellsExpired sched) (λ answer _. IsCount answer) expired.old expired.new world.old.place.value result world.new.place.value }
{
    let service = at_sched!(world, sched);
    let answer = service.expired(sched);
    tell_count(answer, expired)
}

/// Tells how many messages wait in the mailbox of a process.
#[unsafe(no_mangle)]
pub extern "C" fn ert_world_mail_count(world: &mut ErtWorld, process: u32, count: &mut u64) -> i32
    ensures { AnswersAtProcess process (TellsMail process) (λ answer _. IsCount answer) count.old count.new world.old.place.value result world.new.place.value }
{
    let service = at_process!(world, process);
    let answer = service.mail_count(process);
    tell_count(answer, count)
}

/// Makes a turn of a scheduler in which so many timers at most expire, and so many at most are handed over.
#[unsafe(no_mangle)]
pub extern "C" fn ert_world_turn_some(
    world: &mut ErtWorld,
    sched: u32,
    most: u32,
    turned: &mut ErtTurnedSome,
) -> i32
    ensures { AnswersAtSched sched (TurnsSomeBy sched most) IsTurnedSome turned.old turned.new world.old.place.value result world.new.place.value }
{
    let service = at_sched!(world, sched);
    let answer = service.turn_some(sched, most);
    tell_turned_some(answer, turned)
}
