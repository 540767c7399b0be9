//! How C is told what waits, what was given a new deadline, and what a turn with a bound did.
ghost use Rattle.std.specs.Prelude.{◌≡◌};
ghost use Rattle.ert_c.specs.Waiting.{turned_some_as, IsRestarted, IsCount, IsTurnedSome};

use crate::status::{BAD_TIME, FULL, NO_TIMER, OK};
use crate::timer_calls::ErtTimer;
use crate::turn_calls::tell;
use ert_defs::{NoMemory, TimerRef};
use ert_effects::Turned;
use ert_world::RestartErr;

/// What a turn with a bound did.
#[repr(C)]
#[derive(Clone, Copy)]
pub struct ErtTurnedSome {
    /// In milliseconds since the start time.
    pub to: u64,
    pub served: u32,
    pub expired: u32,
    pub put: u32,
    pub dropped: u32,
    /// Whether there is more: timers that are due by then or have expired, or rows that have to move first.
    pub more: u32,
}

/// Returns the answer of a restart.
pub(crate) fn tell_restarted(answer: Result<TimerRef, RestartErr>, timer: &mut ErtTimer) -> i32
    ensures { IsRestarted answer timer.old result timer.new }
{
    match answer {
        Ok(next) => {
            *timer = ErtTimer::of(next);
            OK
        }
        Err(RestartErr::BadArg) => BAD_TIME,
        Err(RestartErr::NotArmed) => NO_TIMER,
        Err(RestartErr::Full) => FULL,
    }
}

/// Returns a number.
pub(crate) fn tell_count(answer: u64, count: &mut u64) -> i32
    ensures { IsCount answer result count.new }
{
    *count = answer;
    OK
}

/// Returns what a turn with a bound did.
pub(crate) fn tell_turned_some(
    answer: Result<(Turned, bool), NoMemory>,
    turned: &mut ErtTurnedSome,
) -> i32
    ensures { IsTurnedSome answer turned.old result turned.new }
{
    tell(
        answer.map(|(done, more)| turned_some_as(done, more)),
        turned,
    )
}

fn turned_some_as(done: Turned, more: bool) -> ErtTurnedSome
    ensures { result ≡ turned_some_as (done, more) }
{
    ErtTurnedSome {
        to: done.to,
        served: done.served,
        expired: done.expired,
        put: done.put,
        dropped: done.dropped,
        more: u32::from(more),
    }
}
