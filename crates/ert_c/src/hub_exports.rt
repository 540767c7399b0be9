//! The exported calls of a hub.
ghost use Rattle.std.specs.Prelude.{◌≡◌};
ghost use Rattle.ert_c.specs.{ClockCalls.{is_on, IsMoved, IsFinalized}, HubCalls.{OpensHub, OpensHubSeat, HubTicksBy, HubFinalizesBy, HubReadsTime, HubReadsSystemTime, HubReadsOffset, HubCancelsBy, HubReadsBy}, Opened.reading_as};
ghost use Rattle.ert_c.specs.{Opened.ClosesHandle, ShardCalls.OpensShard, Through.{Through, TellsC, AnswersThrough}, Told.{timer_from_c, IsLeftTold}};

use crate::clock_calls::{ErtMoved, ErtOffset, state_as, tell_finalized, tell_moved};
use crate::handle::{ErtSeat, opened};
use crate::opening::{ErtReading, ErtSettings};
use crate::shard_handle::{ErtHub, ErtShard};
use crate::status::{BAD_COUNT, CLOSED, NO_MEMORY, NO_SEAT, NO_SHARD, OK, OPEN, RANGE};
use crate::timer_calls::{ErtTimer, tell_left};
use ert_shard::{Hub, ShardErr};
use ert_world::{SeatErr, World};
use std::alloc::Global;

/// Opens a service that is divided among threads, and its hub.
#[unsafe(no_mangle)]
pub extern "C" fn ert_hub_open(alloc: Global, hub: &mut ErtHub, settings: &ErtSettings) -> i32
    ensures { OpensHub settings.now hub.old.place.value result hub.new.place.value }
{
    if hub.live {
        return OPEN;
    }
    let settings = match settings.read() {
        Ok(settings) => settings,
        Err(status) => return status,
    };
    if settings.callers <= settings.schedulers {
        return BAD_COUNT;
    }
    let Ok(opened) = World::open(alloc, &settings) else {
        return NO_MEMORY;
    };
    let Ok(boxed) = Box::new(alloc, Hub::new(opened)) else {
        return NO_MEMORY;
    };
    hub.place.as_place().fill(boxed);
    hub.live = true;
    OK
}

/// Closes a hub, and gives its memory back.
#[unsafe(no_mangle)]
pub extern "C" fn ert_hub_close(alloc: Global, hub: &mut ErtHub) -> i32
    ensures { ClosesHandle hub.old.place.value result hub.new.place.value }
{
    if !hub.live {
        return CLOSED;
    }
    let _hub = hub.place.as_place().empty(alloc);
    hub.live = false;
    OK
}

/// Gives the last scheduler that a hub has left to a shard, with so many of the last processes.
#[unsafe(no_mangle)]
pub extern "C" fn ert_hub_shard(
    alloc: Global,
    hub: &mut ErtHub,
    shard: &mut ErtShard,
    processes: u32,
) -> i32
    ensures { OpensShard processes hub.old.place.value shard.old.place.value result hub.new.place.value shard.new.place.value }
{
    if shard.live {
        return OPEN;
    }
    let rest = opened!(hub);
    if rest.schedulers_left() == 0 {
        return NO_SHARD;
    }
    if processes > rest.processes_left() {
        return RANGE;
    }
    match rest.shard(processes) {
        Ok(given) => match Box::new(alloc, given) {
            Ok(boxed) => {
                shard.place.as_place().fill(boxed);
                shard.live = true;
                OK
            }
            Err(failed) => {
                rest.join(failed.value);
                NO_MEMORY
            }
        },
        Err(ShardErr::Used) => NO_SHARD,
        Err(ShardErr::NoMemory) => NO_MEMORY,
    }
}

/// Gives the next caller after those of the schedulers a seat.
#[unsafe(no_mangle)]
pub extern "C" fn ert_hub_seat(alloc: Global, hub: &mut ErtHub, seat: &mut ErtSeat) -> i32
    ensures { OpensHubSeat hub.old.place.value seat.old.place.value result hub.new.place.value seat.new.place.value }
{
    if seat.live {
        return OPEN;
    }
    match opened!(hub).seat(alloc) {
        Ok(given) => {
            seat.place.as_place().fill(given);
            seat.live = true;
            OK
        }
        Err(SeatErr::NoSeat) => NO_SEAT,
        Err(SeatErr::NoMemory) => NO_MEMORY,
    }
}

/// Takes a reading of the clocks of the operating system.
#[unsafe(no_mangle)]
pub extern "C" fn ert_hub_tick(
    hub: &mut ErtHub,
    reading: &ErtReading,
    force: u32,
    moved: &mut ErtMoved,
) -> i32
    ensures { AnswersThrough (HubTicksBy (reading_as reading.now) (is_on force)) IsMoved moved.old moved.new hub.old.place.value result hub.new.place.value }
{
    let answer = opened!(hub).tick(reading.read(), force != 0);
    tell_moved(answer, moved)
}

/// Finalizes the time offset.
#[unsafe(no_mangle)]
pub extern "C" fn ert_hub_finalize(
    hub: &mut ErtHub,
    reading: &ErtReading,
    before: &mut u32,
    moved: &mut ErtMoved,
) -> i32
    ensures { Through ((before.new ≡ before.old) × (moved.new ≡ moved.old))
        (TellsC (HubFinalizesBy (reading_as reading.now)) (λ answer. IsFinalized answer before.old moved.old result before.new moved.new))
        hub.old.place.value result hub.new.place.value }
{
    let answer = opened!(hub).finalize(reading.read());
    tell_finalized(answer, before, moved)
}

/// Monotonic time, in nanoseconds.
#[unsafe(no_mangle)]
pub extern "C" fn ert_hub_monotonic_time(hub: &mut ErtHub, time: &mut i64) -> i32
    ensures { Through (time.new ≡ time.old) (HubReadsTime result time.new) hub.old.place.value result hub.new.place.value }
{
    *time = opened!(hub).monotonic_time();
    OK
}

/// System time, in nanoseconds.
#[unsafe(no_mangle)]
pub extern "C" fn ert_hub_system_time(hub: &mut ErtHub, time: &mut i64) -> i32
    ensures { Through (time.new ≡ time.old) (HubReadsSystemTime result time.new) hub.old.place.value result hub.new.place.value }
{
    *time = opened!(hub).system_time();
    OK
}

/// The time offset, in nanoseconds, with its state.
#[unsafe(no_mangle)]
pub extern "C" fn ert_hub_time_offset(hub: &mut ErtHub, offset: &mut ErtOffset) -> i32
    ensures { Through (offset.new ≡ offset.old) (HubReadsOffset result offset.new) hub.old.place.value result hub.new.place.value }
{
    let (value, state) = opened!(hub).time_offset();
    *offset = ErtOffset {
        offset: value,
        state: state_as(state),
    };
    OK
}

/// Cancels a timer, and tells how much was left of it.
#[unsafe(no_mangle)]
pub extern "C" fn ert_hub_cancel(hub: &mut ErtHub, timer: &ErtTimer, left: &mut u64) -> i32
    ensures { AnswersThrough (HubCancelsBy (timer_from_c timer.now)) IsLeftTold left.old left.new hub.old.place.value result hub.new.place.value }
{
    let answer = opened!(hub).cancel_timer(timer.read());
    tell_left(answer, left)
}

/// Tells how much is left of a timer.
#[unsafe(no_mangle)]
pub extern "C" fn ert_hub_read(hub: &mut ErtHub, timer: &ErtTimer, left: &mut u64) -> i32
    ensures { AnswersThrough (HubReadsBy (timer_from_c timer.now)) IsLeftTold left.old left.new hub.old.place.value result hub.new.place.value }
{
    let answer = opened!(hub).read_timer(timer.read());
    tell_left(answer, left)
}
