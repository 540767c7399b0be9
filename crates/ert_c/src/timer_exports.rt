//! The exported calls on timers and processes.
ghost use Rattle.std.specs.Prelude.{◌≡◌};
ghost use Rattle.ert_c.specs.{Calls.{AnswersAtProcess, StartsTimer, AsksRoom, CancelsBy, ReadsBy, TellsAliveBy, ExitsBy}, Mailing.CancelsAllBy, Told.{timer_from_c, IsLeftTold, IsFlag}, Waiting.IsCount, Through.AnswersThrough};

use crate::handle::{ErtWorld, at_process, at_sched, opened};
use crate::status::{CLOSED, RANGE};
use crate::timer_calls::{ErtStart, ErtTimer, tell_flag, tell_left, tell_room, tell_started};
use crate::waiting_calls::tell_count;

/// Starts a timer on the wheel of a scheduler.
#[unsafe(no_mangle)]
pub extern "C" fn ert_world_start(
    world: &mut ErtWorld,
    sched: u32,
    start: &ErtStart,
    timer: &mut ErtTimer,
) -> i32
    ensures { StartsTimer sched start.now timer.old timer.new world.old.place.value result world.new.place.value }
{
    let service = at_sched!(world, sched);
    if start.dest >= service.settings().processes {
        return RANGE;
    }
    let answer = service.start(sched, &start.read());
    tell_started(answer, timer)
}

/// Tells how much room the wheel of a scheduler has.
#[unsafe(no_mangle)]
pub extern "C" fn ert_world_ready(
    world: &mut ErtWorld,
    sched: u32,
    room: &mut u32,
    ready: &mut u64,
) -> i32
    ensures { AsksRoom sched ((room.new ≡ room.old) × (ready.new ≡ ready.old)) room.new ready.new world.old.place.value result world.new.place.value }
{
    let service = at_sched!(world, sched);
    let answer = service.room(sched);
    tell_room(answer, room, ready)
}

/// Cancels a timer, and tells how much was left of it.
#[unsafe(no_mangle)]
pub extern "C" fn ert_world_cancel(world: &mut ErtWorld, timer: &ErtTimer, left: &mut u64) -> i32
    ensures { AnswersThrough (CancelsBy (timer_from_c timer.now)) IsLeftTold left.old left.new world.old.place.value result world.new.place.value }
{
    let answer = opened!(world).cancel_timer(timer.read());
    tell_left(answer, left)
}

/// Tells how much is left of a timer.
#[unsafe(no_mangle)]
pub extern "C" fn ert_world_read(world: &mut ErtWorld, timer: &ErtTimer, left: &mut u64) -> i32
    ensures { AnswersThrough (ReadsBy (timer_from_c timer.now)) IsLeftTold left.old left.new world.old.place.value result world.new.place.value }
{
    let answer = opened!(world).read_timer(timer.read());
    tell_left(answer, left)
}

/// Tells whether a process has not exited.
#[unsafe(no_mangle)]
pub extern "C" fn ert_world_is_alive(world: &mut ErtWorld, process: u32, alive: &mut u32) -> i32
    ensures { AnswersAtProcess process (TellsAliveBy process) (λ answer _. IsFlag answer) alive.old alive.new
        world.old.place.value result world.new.place.value }
{
    let service = at_process!(world, process);
    let answer = service.is_alive(process);
    tell_flag(answer, alive)
}

/// Lets a process exit, and tells whether it had not before.
#[unsafe(no_mangle)]
pub extern "C" fn ert_world_exit(world: &mut ErtWorld, process: u32, first: &mut u32) -> i32
    ensures { AnswersAtProcess process (ExitsBy process) (λ answer _. IsFlag answer) first.old first.new
        world.old.place.value result world.new.place.value }
{
    let service = at_process!(world, process);
    let answer = service.exit(process);
    tell_flag(answer, first)
}

/// Cancels all timers of a process, and tells how many.
#[unsafe(no_mangle)]
pub extern "C" fn ert_world_cancel_all(
    world: &mut ErtWorld,
    process: u32,
    cancelled: &mut u64,
) -> i32
    ensures { AnswersAtProcess process (CancelsAllBy process) (λ answer _. IsCount answer) cancelled.old cancelled.new
        world.old.place.value result world.new.place.value }
{
    let service = at_process!(world, process);
    let answer = service.cancel_all(process);
    tell_count(answer, cancelled)
}
