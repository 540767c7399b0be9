//! The exported calls of seats.
ghost use Rattle.std.specs.Prelude.{◌≡◌};
ghost use Rattle.ert_c.specs.{Opened.ClosesHandle, SeatCalls.{OpensSeat, SeatReadsTime, SeatReadsSystemTime, SeatReadsOffset, SeatCancelsBy, SeatReadsBy, SeatTellsAlive}, Through.{Through, AnswersThrough}, Told.{timer_from_c, IsLeftTold}};

use crate::clock_calls::{ErtOffset, state_as};
use crate::handle::{ErtSeat, ErtWorld, opened};
use crate::status::{CLOSED, NO_MEMORY, NO_SEAT, OK, OPEN, RANGE};
use crate::timer_calls::{ErtTimer, tell_flag, tell_left};
use ert_world::SeatErr;
use std::alloc::Global;

/// Gives the next caller of a service a seat.
#[unsafe(no_mangle)]
pub extern "C" fn ert_seat_open(alloc: Global, seat: &mut ErtSeat, world: &mut ErtWorld) -> i32
    ensures { OpensSeat world.old.place.value seat.old.place.value result world.new.place.value seat.new.place.value }
{
    if seat.live {
        return OPEN;
    }
    match opened!(world).seat(alloc) {
        Ok(given) => {
            seat.place.as_place().fill(given);
            seat.live = true;
            OK
        }
        Err(SeatErr::NoSeat) => NO_SEAT,
        Err(SeatErr::NoMemory) => NO_MEMORY,
    }
}

/// Closes a seat, and gives its memory back.
#[unsafe(no_mangle)]
pub extern "C" fn ert_seat_close(alloc: Global, seat: &mut ErtSeat) -> i32
    ensures { ClosesHandle seat.old.place.value result seat.new.place.value }
{
    if !seat.live {
        return CLOSED;
    }
    let _seat = seat.place.as_place().empty(alloc);
    seat.live = false;
    OK
}

/// Monotonic time, in nanoseconds.
#[unsafe(no_mangle)]
pub extern "C" fn ert_seat_monotonic_time(seat: &mut ErtSeat, time: &mut i64) -> i32
    ensures { Through (time.new ≡ time.old) (SeatReadsTime result time.new) seat.old.place.value result seat.new.place.value }
{
    *time = opened!(seat).monotonic_time();
    OK
}

/// System time, in nanoseconds.
#[unsafe(no_mangle)]
pub extern "C" fn ert_seat_system_time(seat: &mut ErtSeat, time: &mut i64) -> i32
    ensures { Through (time.new ≡ time.old) (SeatReadsSystemTime result time.new) seat.old.place.value result seat.new.place.value }
{
    *time = opened!(seat).system_time();
    OK
}

/// The time offset, in nanoseconds, with its state.
#[unsafe(no_mangle)]
pub extern "C" fn ert_seat_time_offset(seat: &mut ErtSeat, offset: &mut ErtOffset) -> i32
    ensures { Through (offset.new ≡ offset.old) (SeatReadsOffset result offset.new) seat.old.place.value result seat.new.place.value }
{
    let (value, state) = opened!(seat).time_offset();
    *offset = ErtOffset {
        offset: value,
        state: state_as(state),
    };
    OK
}

/// Cancels a timer, and tells how much was left of it.
#[unsafe(no_mangle)]
pub extern "C" fn ert_seat_cancel(seat: &mut ErtSeat, timer: &ErtTimer, left: &mut u64) -> i32
    ensures { AnswersThrough (SeatCancelsBy (timer_from_c timer.now)) IsLeftTold left.old left.new seat.old.place.value result seat.new.place.value }
{
    let answer = opened!(seat).cancel_timer(timer.read());
    tell_left(answer, left)
}

/// Tells how much is left of a timer.
#[unsafe(no_mangle)]
pub extern "C" fn ert_seat_read(seat: &mut ErtSeat, timer: &ErtTimer, left: &mut u64) -> i32
    ensures { AnswersThrough (SeatReadsBy (timer_from_c timer.now)) IsLeftTold left.old left.new seat.old.place.value result seat.new.place.value }
{
    let answer = opened!(seat).read_timer(timer.read());
    tell_left(answer, left)
}

/// Tells whether a process has not exited.
#[unsafe(no_mangle)]
pub extern "C" fn ert_seat_is_alive(seat: &mut ErtSeat, process: u32, alive: &mut u32) -> i32
    ensures { Through (alive.new ≡ alive.old) (SeatTellsAlive process alive.old result alive.new) seat.old.place.value result seat.new.place.value }
{
    let taken = opened!(seat);
    if process >= taken.processes() {
        return RANGE;
    }
    let answer = taken.is_alive(process);
    tell_flag(answer, alive)
}
