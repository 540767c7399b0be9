//! Timers, as C passes and is told them.
ghost use Rattle.std.specs.Prelude.{◌≡◌};
ghost use Rattle.ert_c.specs.Told.{timer_as, timer_from_c, start_of, flag, IsStartTold, IsRoomTold, IsLeftTold, IsFlag};

use crate::status::{BAD_TIME, FULL, NO_MEMORY, NO_TIMER, OK};
use ert_defs::{Kind, Start, TimerRef, When};
use ert_effects::Room;
use ert_timers::StartErr;

/// Names a timer.
#[repr(C)]
#[derive(Clone, Copy)]
pub struct ErtTimer {
    pub wheel: u32,
    pub slot: u32,
    /// Which use of the slot it is.
    pub generation: u64,
}

/// What a timer is started with.
#[repr(C)]
#[derive(Clone, Copy)]
pub struct ErtStart {
    /// In milliseconds: after the start, or of monotonic time.
    pub when: i64,
    pub msg: u64,
    /// Whether `when` is a time: not 0.
    pub absolute: u32,
    /// Whether the message comes without the timer's name: not 0.
    pub bare: u32,
    /// The process that gets the message.
    pub dest: u32,
}

impl ErtTimer {
    /// The name of a timer, as C is told it.
    pub(crate) fn of(timer: TimerRef) -> ErtTimer
        ensures { result ≡ timer_as timer }
    {
        ErtTimer {
            wheel: timer.wheel,
            slot: timer.slot,
            generation: timer.generation,
        }
    }

    /// The name of a timer, as a service takes it.
    pub(crate) fn read(&self) -> TimerRef
        ensures { result ≡ timer_from_c self.now }
    {
        TimerRef {
            wheel: self.wheel,
            slot: self.slot,
            generation: self.generation,
        }
    }
}

impl ErtStart {
    /// The start, as a service takes it.
    pub(crate) fn read(&self) -> Start
        ensures { result ≡ start_of self.now }
    {
        let when = if self.absolute != 0 {
            When::At(self.when)
        } else {
            When::After(self.when)
        };
        let kind = if self.bare != 0 {
            Kind::Bare
        } else {
            Kind::Wrapped
        };
        Start {
            when,
            dest: self.dest,
            msg: self.msg,
            kind,
        }
    }
}

/// Returns the answer of a start.
pub(crate) fn tell_started(answer: Result<TimerRef, StartErr>, timer: &mut ErtTimer) -> i32
    ensures { IsStartTold answer timer.old result timer.new }
{
    match answer {
        Ok(started) => {
            *timer = ErtTimer::of(started);
            OK
        }
        Err(StartErr::BadArg) => BAD_TIME,
        Err(StartErr::Full) => FULL,
        Err(StartErr::NoMemory) => NO_MEMORY,
    }
}

/// Returns how much room a wheel has.
pub(crate) fn tell_room(answer: Room, room: &mut u32, ready: &mut u64) -> i32
    ensures { IsRoomTold answer result room.new ready.new }
{
    *room = answer.free;
    *ready = match answer.ready {
        Some(time) => time,
        None => 0,
    };
    OK
}

/// Returns how much was left of a timer.
pub(crate) fn tell_left(answer: Option<u64>, left: &mut u64) -> i32
    ensures { IsLeftTold answer left.old result left.new }
{
    match answer {
        Some(rest) => {
            *left = rest;
            OK
        }
        None => NO_TIMER,
    }
}

/// Returns yes or no.
pub(crate) fn tell_flag(answer: bool, flag: &mut u32) -> i32
    ensures { IsFlag answer result flag.new }
{
    *flag = u32::from(answer);
    OK
}
