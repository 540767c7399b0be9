//! The exported calls that open and close a service, and those on its clock.
ghost use Rattle.std.specs.Prelude.{◌≡◌};
ghost use Rattle.ert_c.specs.{ClockCalls.{is_on, TicksBy, FinalizesBy, ReadsTime, ReadsSystemTime, ReadsOffset, IsMoved, IsFinalized}, Opened.{reading_as, Opens, ClosesHandle}, Through.{Through, TellsC, AnswersThrough}};

use crate::clock_calls::{ErtMoved, ErtOffset, state_as, tell_finalized, tell_moved};
use crate::handle::{ErtWorld, opened};
use crate::opening::{ErtReading, ErtSettings};
use crate::status::{CLOSED, NO_MEMORY, OK, OPEN};
use ert_world::World;
use std::alloc::Global;

/// Opens a service.
#[unsafe(no_mangle)]
pub extern "C" fn ert_world_open(alloc: Global, world: &mut ErtWorld, settings: &ErtSettings) -> i32
    ensures { Opens settings.now world.old.place.value result world.new.place.value }
{
    if world.live {
        return OPEN;
    }
    let settings = match settings.read() {
        Ok(settings) => settings,
        Err(status) => return status,
    };
    let Ok(opened) = World::open(alloc, &settings) else {
        return NO_MEMORY;
    };
    let Ok(boxed) = Box::new(alloc, opened) else {
        return NO_MEMORY;
    };
    world.place.as_place().fill(boxed);
    world.live = true;
    OK
}

/// Closes a service, and gives its memory back.
#[unsafe(no_mangle)]
pub extern "C" fn ert_world_close(alloc: Global, world: &mut ErtWorld) -> i32
    ensures { ClosesHandle world.old.place.value result world.new.place.value }
{
    if !world.live {
        return CLOSED;
    }
    let _world = world.place.as_place().empty(alloc);
    world.live = false;
    OK
}

/// Takes a reading of the clocks of the operating system.
#[unsafe(no_mangle)]
pub extern "C" fn ert_world_tick(
    world: &mut ErtWorld,
    reading: &ErtReading,
    force: u32,
    moved: &mut ErtMoved,
) -> i32
    ensures { AnswersThrough (TicksBy (reading_as reading.now) (is_on force)) IsMoved moved.old moved.new world.old.place.value result world.new.place.value }
{
    let answer = opened!(world).tick(reading.read(), force != 0);
    tell_moved(answer, moved)
}

/// Finalizes the time offset.
#[unsafe(no_mangle)]
pub extern "C" fn ert_world_finalize(
    world: &mut ErtWorld,
    reading: &ErtReading,
    before: &mut u32,
    moved: &mut ErtMoved,
) -> i32
    ensures { Through ((before.new ≡ before.old) × (moved.new ≡ moved.old))
        (TellsC (FinalizesBy (reading_as reading.now)) (λ answer. IsFinalized answer before.old moved.old result before.new moved.new))
        world.old.place.value result world.new.place.value }
{
    let answer = opened!(world).finalize(reading.read());
    tell_finalized(answer, before, moved)
}

/// Monotonic time, in nanoseconds.
#[unsafe(no_mangle)]
pub extern "C" fn ert_world_monotonic_time(world: &mut ErtWorld, time: &mut i64) -> i32
    ensures { Through (time.new ≡ time.old) (ReadsTime result time.new) world.old.place.value result world.new.place.value }
{
    *time = opened!(world).monotonic_time();
    OK
}

/// System time, in nanoseconds.
#[unsafe(no_mangle)]
pub extern "C" fn ert_world_system_time(world: &mut ErtWorld, time: &mut i64) -> i32
    ensures { Through (time.new ≡ time.old) (ReadsSystemTime result time.new) world.old.place.value result world.new.place.value }
{
    *time = opened!(world).system_time();
    OK
}

/// The time offset, in nanoseconds, with its state.
#[unsafe(no_mangle)]
pub extern "C" fn ert_world_time_offset(world: &mut ErtWorld, offset: &mut ErtOffset) -> i32
    ensures { Through (offset.new ≡ offset.old) (ReadsOffset result offset.new) world.old.place.value result world.new.place.value }
{
    let (value, state) = opened!(world).time_offset();
    *offset = ErtOffset {
        offset: value,
        state: state_as(state),
    };
    OK
}
