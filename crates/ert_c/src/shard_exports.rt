//! The exported calls of a shard: its close, and those on the clock, on timers and on exits.
ghost use Rattle.std.specs.Prelude.{◌≡◌};
ghost use Rattle.ert_c.specs.{Opened.ClosesHandle, ShardCalls.{TellsProcesses, ShardReadsTime, ShardReadsSystemTime, ShardReadsOffset, ShardStarts, ShardCancelsBy, ShardReadsBy, ShardTellsAlive, AnswersAtHome, ShardExitsBy}};
ghost use Rattle.ert_c.specs.{Through.{Through, AnswersThrough}, Told.{timer_from_c, IsFlag, IsLeftTold}};

use crate::clock_calls::{ErtOffset, state_as};
use crate::handle::opened;
use crate::shard_handle::{ErtShard, at_home};
use crate::status::{CLOSED, OK, RANGE};
use crate::timer_calls::{ErtStart, ErtTimer, tell_flag, tell_left, tell_started};
use std::alloc::Global;

/// Closes a shard, and gives its memory back.
#[unsafe(no_mangle)]
pub extern "C" fn ert_shard_close(alloc: Global, shard: &mut ErtShard) -> i32
    ensures { ClosesHandle shard.old.place.value result shard.new.place.value }
{
    if !shard.live {
        return CLOSED;
    }
    let _shard = shard.place.as_place().empty(alloc);
    shard.live = false;
    OK
}

/// Tells which processes are of a shard: the first, and the first after them.
#[unsafe(no_mangle)]
pub extern "C" fn ert_shard_processes(shard: &mut ErtShard, from: &mut u32, to: &mut u32) -> i32
    ensures { Through ((from.new ≡ from.old) × (to.new ≡ to.old)) (TellsProcesses result from.new to.new) shard.old.place.value result shard.new.place.value }
{
    let own = opened!(shard);
    *from = own.from();
    *to = own.to();
    OK
}

/// Monotonic time, in nanoseconds.
#[unsafe(no_mangle)]
pub extern "C" fn ert_shard_monotonic_time(shard: &mut ErtShard, time: &mut i64) -> i32
    ensures { Through (time.new ≡ time.old) (ShardReadsTime result time.new) shard.old.place.value result shard.new.place.value }
{
    *time = opened!(shard).monotonic_time();
    OK
}

/// System time, in nanoseconds.
#[unsafe(no_mangle)]
pub extern "C" fn ert_shard_system_time(shard: &mut ErtShard, time: &mut i64) -> i32
    ensures { Through (time.new ≡ time.old) (ShardReadsSystemTime result time.new) shard.old.place.value result shard.new.place.value }
{
    *time = opened!(shard).system_time();
    OK
}

/// The time offset, in nanoseconds, with its state.
#[unsafe(no_mangle)]
pub extern "C" fn ert_shard_time_offset(shard: &mut ErtShard, offset: &mut ErtOffset) -> i32
    ensures { Through (offset.new ≡ offset.old) (ShardReadsOffset result offset.new) shard.old.place.value result shard.new.place.value }
{
    let (value, state) = opened!(shard).time_offset();
    *offset = ErtOffset {
        offset: value,
        state: state_as(state),
    };
    OK
}

/// Starts a timer on the wheel of a shard, for a process of its own.
#[unsafe(no_mangle)]
pub extern "C" fn ert_shard_start(
    shard: &mut ErtShard,
    start: &ErtStart,
    timer: &mut ErtTimer,
) -> i32
    ensures { ShardStarts start.now timer.old timer.new shard.old.place.value result shard.new.place.value }
{
    let process = start.dest;
    let own = at_home!(shard, process);
    let answer = own.start(&start.read());
    tell_started(answer, timer)
}

/// Cancels a timer, and tells how much was left of it.
#[unsafe(no_mangle)]
pub extern "C" fn ert_shard_cancel(shard: &mut ErtShard, timer: &ErtTimer, left: &mut u64) -> i32
    ensures { AnswersThrough (ShardCancelsBy (timer_from_c timer.now)) IsLeftTold left.old left.new shard.old.place.value result shard.new.place.value }
{
    let answer = opened!(shard).cancel_timer(timer.read());
    tell_left(answer, left)
}

/// Tells how much is left of a timer.
#[unsafe(no_mangle)]
pub extern "C" fn ert_shard_read(shard: &mut ErtShard, timer: &ErtTimer, left: &mut u64) -> i32
    ensures { AnswersThrough (ShardReadsBy (timer_from_c timer.now)) IsLeftTold left.old left.new shard.old.place.value result shard.new.place.value }
{
    let answer = opened!(shard).read_timer(timer.read());
    tell_left(answer, left)
}

/// Tells whether a process has not exited, of whatever shard.
#[unsafe(no_mangle)]
pub extern "C" fn ert_shard_is_alive(shard: &mut ErtShard, process: u32, alive: &mut u32) -> i32
    ensures { Through (alive.new ≡ alive.old) (ShardTellsAlive process alive.old result alive.new) shard.old.place.value result shard.new.place.value }
{
    let own = opened!(shard);
    if process >= own.processes() {
        return RANGE;
    }
    let answer = own.is_alive(process);
    tell_flag(answer, alive)
}

/// Lets a process of a shard exit, and tells whether it had not before.
#[unsafe(no_mangle)]
pub extern "C" fn ert_shard_exit(shard: &mut ErtShard, process: u32, first: &mut u32) -> i32
    ensures { AnswersAtHome process (ShardExitsBy process) (λ answer _. IsFlag answer) first.old first.new shard.old.place.value result shard.new.place.value }
{
    let own = at_home!(shard, process);
    let answer = own.exit(process);
    tell_flag(answer, first)
}
