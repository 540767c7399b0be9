ghost use Rattle.std.specs.Int.{w128, int_div_euclid};
ghost use Rattle.std.specs.Prelude.{◌≡◌, ◌↔◌, ◌*ℤ◌, pos, FitsSigned, IsTrue};
ghost use Rattle.ert_defs.specs.{Clocks.{face, first_clock}, Lines.{IsOffset, rate_of, rate_after, is_base, shift_of, mono_after, line_time, time_after, base_from, due_at, due_after, ticked, shifted}, Settings.IsChecked};

use ert_defs::milliseconds::{NANOSECONDS_PER_MILLISECOND, millionth};
use ert_defs::{Act, OffsetState, Reading, Settings};

/// How far away the last check is, in nanoseconds, where the next is due: a minute (profile).
const CHECK_INTERVAL: u64 = 60_000_000_000;

/// How far OS system time may lie from system time, in nanoseconds, before a check acts: a millisecond
/// (profile).
const TOLERANCE: i128 = NANOSECONDS_PER_MILLISECOND as i128;

/// From how far on a check corrects at full strength, in nanoseconds: 100 milliseconds (profile).
const FAR: i128 = 100_000_000;

/// By how many parts per million a check makes time faster or slower to use up a small difference
/// (profile).
const GENTLE: i16 = 500;

/// By how many parts per million it does so where the difference is large: one percent, the most that the
/// ERTS User's Guide allows ("Time Correction").
const STRONG: i16 = 10_000;

/// The line on which time runs with correction, from the last check on.
#[derive(Clone, Copy)]
pub struct Line {
    /// Monotonic time at the last check, in nanoseconds.
    pub time: i64,
    /// OS monotonic time at the last check.
    pub mono: i64,
    /// OS system time at the last check.
    pub sys: i64,
    /// By how many parts per million time runs faster than OS monotonic time, -10,000 to 10,000.
    pub rate: i16,
}

/// The numbers of a clock that change, in nanoseconds.
#[derive(Clone, Copy)]
pub struct Face {
    /// Monotonic time.
    pub time: i64,
    /// The time offset.
    pub offset: i64,
    pub state: OffsetState,
    pub line: Line,
    /// The greatest OS monotonic time so far.
    pub mono: i64,
}

/// Whether an offset is within its limits.
pub fn is_offset(offset: i128) -> bool
    ensures { IsTrue result ↔ IsOffset offset }
{
    -(1 << 62) < offset && offset < 1 << 62
}

/// The rate after a check that finds OS system time so many nanoseconds above system time.
fn rate_after_check(state: OffsetState, error: i128) -> i16
    ensures { result ≡ rate_of state error }
{
    if state != OffsetState::Final {
        0
    } else if error > FAR {
        STRONG
    } else if error > TOLERANCE {
        GENTLE
    } else if error < -FAR {
        -STRONG
    } else if error < -TOLERANCE {
        -GENTLE
    } else {
        0
    }
}

/// The rate of a line that starts at a tick.
fn rate_after(act: Act, state: OffsetState, error: i128) -> i16
    ensures { result ≡ rate_after act state error }
{
    match act {
        Act::Finalize => 0,
        Act::Plain | Act::Force => rate_after_check(state, error),
    }
}

/// What a line gains in so many nanoseconds by its rate. Mostly the rate is 0, and nothing is to be multiplied.
#[inline(always)]
fn gained(since: i128, rate: i128) -> i128
    requires { FitsSigned w128 (since *ℤ rate) }
    ensures { result ≡ int_div_euclid (since *ℤ rate) (pos 1000000) }
{
    if rate == 0 {
        0
    } else {
        millionth(since * rate)
    }
}

impl Line {
    ghost use Rattle.ert_clock.specs.Faces.{base_of};

    /// The time on the line at an OS monotonic time. Before the last check, or past the last valid reading,
    /// it may need more than 64 bits.
    pub fn time_at(&self, mono: i64) -> i128
        ensures { result ≡ line_time (base_of self.now) mono }
    {
        let since = mono as i128 - self.mono as i128;
        self.time as i128 + since + gained(since, self.rate as i128)
    }
}

impl Face {
    ghost use Rattle.ert_clock.specs.Faces.{base_of, face_of, runs_on};

    /// The face at the opening. The first reading counts as a check.
    pub fn opening(settings: &Settings) -> Face
        requires { IsChecked settings.now }
        ensures { face_of result ≡ face settings.now (first_clock settings.now) }
    {
        let Reading { mono, sys } = settings.first;
        let time = settings.start;
        Face {
            time,
            offset: sys - time,
            state: settings.mode.first_state(),
            line: Line {
                time,
                mono,
                sys,
                rate: 0,
            },
            mono,
        }
    }

    /// The OS monotonic time of a tick: a reading below an earlier one counts as that.
    pub fn mono_after(&self, reading: Reading) -> i64
        ensures { result ≡ mono_after (face_of self.now) reading }
    {
        self.mono.max(reading.mono)
    }

    /// Monotonic time after a tick: that of the line, or without correction OS system time less the offset
    /// where that is later than before. For a face that no valid readings lead to it may need more than 64
    /// bits.
    pub fn time_after(&self, settings: &Settings, reading: Reading) -> i128
        ensures { result ≡ time_after settings.now (face_of self.now) reading }
    {
        if settings.correction {
            self.line.time_at(self.mono_after(reading))
        } else {
            (self.time as i128).max(reading.sys as i128 - self.offset as i128)
        }
    }

    /// Whether a check is due at a tick.
    pub fn is_check_due(&self, settings: &Settings, reading: Reading) -> bool
        ensures { result ≡ due_at settings.now (face_of self.now) reading }
    {
        if settings.correction {
            self.mono_after(reading) as i128 - self.line.mono as i128 >= CHECK_INTERVAL as i128
        } else {
            reading.sys.abs_diff(self.line.sys) >= CHECK_INTERVAL
        }
    }

    /// Whether a new line starts at a tick: at a check, and at a finalization, which is none but counts as
    /// the last check from then on.
    pub fn ends_line(&self, settings: &Settings, reading: Reading, act: Act) -> bool
        ensures { result ≡ is_base act (due_at settings.now (face_of self.now) reading) }
    {
        match act {
            Act::Plain => self.is_check_due(settings, reading),
            Act::Force | Act::Finalize => true,
        }
    }

    /// The line that starts at a tick to a time. Its rate rests on the offset before any shift.
    pub fn line_from(&self, reading: Reading, act: Act, now: i64) -> Line
        ensures { base_of result
            ≡ base_from reading act (mono_after (face_of self.now) reading) now self.now.offset self.now.state }
    {
        let mono = self.mono_after(reading);
        let error = reading.sys as i128 - (now as i128 + self.offset as i128);
        Line {
            time: now,
            mono,
            sys: reading.sys,
            rate: rate_after(act, self.state, error),
        }
    }

    /// Takes a tick to a time by which no line ends.
    pub fn run(&mut self, reading: Reading, now: i64)
        ensures { face_of self.new ≡ runs_on (face_of self.old) reading now }
    {
        self.mono = self.mono_after(reading);
        self.time = now;
    }

    /// Takes a tick to a time, before any shift.
    #[inline(never)]
    pub fn tick(&mut self, settings: &Settings, reading: Reading, act: Act, now: i64)
        ensures { face_of self.new ≡ ticked settings.now (face_of self.old) reading act now }
    {
        let mono = self.mono_after(reading);
        if self.ends_line(settings, reading, act) {
            self.line = self.line_from(reading, act, now);
        }
        self.mono = mono;
        self.time = now;
    }

    /// The offset and the state that are due after a tick to a time. The offset may be outside its limits.
    #[inline(never)]
    pub fn due_after(
        &self,
        settings: &Settings,
        reading: Reading,
        act: Act,
        now: i64,
    ) -> Option<(i128, OffsetState)>
        ensures { result ≡ due_after settings.now (face_of self.now) reading act now }
    {
        let offset = reading.sys as i128 - now as i128;
        match act {
            Act::Finalize => Some((offset, OffsetState::Final)),
            Act::Plain => self.shift_at(self.is_check_due(settings, reading), offset),
            Act::Force => self.shift_at(true, offset),
        }
    }

    /// The shift to an offset that a tick makes due, as a check or none: only a volatile offset moves.
    pub fn shift_at(&self, is_check: bool, offset: i128) -> Option<(i128, OffsetState)>
        ensures { result ≡ shift_of self.now.state is_check offset self.now.offset }
    {
        if self.state == OffsetState::Volatile
            && is_check
            && offset.abs_diff(self.offset as i128) > TOLERANCE.unsigned_abs()
        {
            Some((offset, OffsetState::Volatile))
        } else {
            None
        }
    }

    /// Sets the offset and its state as a tick made due.
    #[inline(never)]
    pub fn shift(&mut self, due: Option<(i64, OffsetState)>)
        ensures { face_of self.new ≡ shifted (face_of self.old) due }
    {
        if let Some((offset, state)) = due {
            self.offset = offset;
            self.state = state;
        }
    }
}
