ghost use Rattle.std.specs.Prelude.{◌≡◌};
ghost use Rattle.ert_defs.specs.{Lines.time_after, Readings.IsValid};
ghost use Rattle.ert_clock.specs.{Faces.face_of, Shown.IsKept, Ticks.{Limits, offset_of}};

use crate::faces::{Face, is_offset};
use ert_defs::{Act, OffsetState, Reading, Settings};
use std::marker::Model;

/// What a tick or a finalization did.
#[derive(Clone, Copy, Debug, PartialEq, Eq)]
pub struct Moved {
    /// Monotonic time after it, in nanoseconds.
    pub now: i64,
    /// The new offset, in nanoseconds, where it was set: by a finalization even to what it was.
    pub shift: Option<i64>,
}

/// Why a tick or a finalization was refused. The clock is as it was.
#[derive(Clone, Copy, Debug, PartialEq, Eq)]
pub enum ClockErr {
    /// The reading isn't valid: `mono` is from 0 to below 2^62, and `sys` between -2^61 and 2^61. This is
    /// tested first.
    BadReading,
    /// The offset would be set to this value, in nanoseconds, which isn't between -2^62 and 2^62.
    OffsetWide { value: i128 },
}

/// Monotonic time and the time offset (ERTS User's Guide, "Time and Time Correction in Erlang").
#[derive(Drop)]
pub struct Clock {
    settings: Settings,
    face: Face,
}

impl Model for Clock {
    ghost use Rattle.ert_clock.specs.{Shown.{Shown, IsKept}, Faces.face_of};

    ghost Value = { Shown };

    ghost view = { λ c. record { settings = c.settings; face = face_of c.face } };

    ghost invariant = { λ c. IsKept c.settings (face_of c.face) };
}

impl Clock {
    ghost use Rattle.std.specs.Prelude.{◌≡◌, ◌+ℤ◌, [], FitsSigned};
    ghost use Rattle.std.specs.Int.{w64};
    ghost use Rattle.ert_defs.specs.Settings.{IsChecked};
    ghost use Rattle.ert_clock.specs.{Shown.{ClockStands, opening_shown}, Ticks.{Limits, act_of, Gives, ClockTicks, ClockFinalizesFrom, ClockFinalizes}};

    /// A clock that has just been opened: monotonic time is the start time, and system time that of the
    /// first reading. The offset is final in no time warp mode, preliminary in single and volatile in multi
    /// time warp mode.
    pub fn new(settings: &Settings) -> Clock
        requires checked { IsChecked settings.now }
        ensures opens { result ≡ opening_shown settings.now }
        ensures stands { ClockStands settings.now [] result }
    {
        Clock {
            settings: *settings,
            face: Face::opening(settings),
        }
    }

    /// Monotonic time, in nanoseconds (`erlang:monotonic_time`).
    pub fn now(&self) -> i64
        ensures { result ≡ self.now.face.time }
    {
        self.face.time
    }

    /// The time offset, in nanoseconds: system time is monotonic time plus the offset
    /// (`erlang:time_offset`).
    pub fn offset(&self) -> i64
        ensures value { result ≡ self.now.face.offset }
        ensures sum { FitsSigned w64 (self.now.face.time +ℤ self.now.face.offset) }
    {
        self.face.offset
    }

    /// The state of the offset.
    pub fn state(&self) -> OffsetState
        ensures { result ≡ self.now.face.state }
    {
        self.face.state
    }

    /// Takes one reading, and sets monotonic time by it. `force` asks for a check, which else comes once
    /// the last one is a minute away ("Time Correction"). A check sets the rate, and in multi time warp mode
    /// the offset, where that is more than a millisecond off ("Time Warp Modes").
    #[inline(always)]
    pub fn tick(&mut self, reading: Reading, force: bool) -> Result<Moved, ClockErr>
        ensures gives { Gives self.old reading (act_of force) result self.new }
        ensures stands { ClockTicks self.old reading (act_of force) result self.new }
    {
        self.step(reading, if force { Act::Force } else { Act::Plain })
    }

    /// Finalizes the time offset, and answers the state that it had (`erlang:system_flag`,
    /// `time_offset`). From preliminary it is a tick that sets the offset so that system time is the
    /// reading's, and makes it final. From another state it changes nothing, and only tests the reading.
    pub fn finalize(&mut self, reading: Reading) -> Result<(OffsetState, Moved), ClockErr>
        ensures gives { ClockFinalizesFrom self.old.face.state self.old reading result self.new }
        ensures stands { ClockFinalizes self.old reading result self.new }
    {
        let state = self.state();
        if state == OffsetState::Preliminary {
            let moved = self.step(reading, Act::Finalize)?;
            Ok((state, moved))
        } else if reading.is_valid() {
            Ok((
                state,
                Moved {
                    now: self.now(),
                    shift: None,
                },
            ))
        } else {
            Err(ClockErr::BadReading)
        }
    }

    /// Takes one reading, for one of the three acts. It computes first what can be refused; between two checks that is
    /// nothing, and time alone runs on.
    #[inline(always)]
    fn step(&mut self, reading: Reading, act: Act) -> Result<Moved, ClockErr>
        ensures { Gives self.old reading act result self.new }
    {
        if !reading.is_valid() {
            return Err(ClockErr::BadReading);
        }
        let settings = &self.settings;
        let now = time_after(settings, &self.face, reading);
        if !self.face.ends_line(settings, reading, act) {
            self.face.run(reading, now);
            return Ok(Moved { now, shift: None });
        }
        let shift = limit(self.face.due_after(settings, reading, act, now))?;
        self.face.tick(settings, reading, act, now);
        self.face.shift(shift);
        Ok(Moved {
            now,
            shift: offset_of(shift),
        })
    }
}

/// Monotonic time after a tick, in nanoseconds. It fits, since a clock takes only valid readings.
fn time_after(settings: &Settings, face: &Face, reading: Reading) -> i64
    requires kept { IsKept settings.now (face_of face.now) }
    requires valid { IsValid reading }
    ensures { result ≡ time_after settings.now (face_of face.now) reading }
{
    face.time_after(settings, reading) as i64
}

/// The shift that is due, if any, unless its offset is outside the limits.
fn limit(due: Option<(i128, OffsetState)>) -> Result<Option<(i64, OffsetState)>, ClockErr>
    ensures { Limits due result }
{
    match due {
        None => Ok(None),
        Some((offset, state)) if is_offset(offset) => Ok(Some((offset as i64, state))),
        Some((value, _)) => Err(ClockErr::OffsetWide { value }),
    }
}

/// The offset of a shift.
fn offset_of(shift: Option<(i64, OffsetState)>) -> Option<i64>
    ensures { result ≡ offset_of shift }
{
    shift.map(|(offset, _)| offset)
}
