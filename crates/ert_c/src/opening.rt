//! A service is opened and closed.
ghost use Rattle.std.specs.Prelude.{◌≡◌};
ghost use Rattle.ert_c.specs.Opened.{reading_as, mode_at, ReadsSettings, settings_as, status_of};

use crate::status::{BAD_COUNT, BAD_MODE, BAD_READING, BAD_SIZE, BAD_START};
use ert_defs::{Mode, Reading, Settings, SettingsFault};

/// A reading of the clocks of the operating system, in nanoseconds.
#[repr(C)]
#[derive(Clone, Copy)]
pub struct ErtReading {
    pub mono: i64,
    pub sys: i64,
}

/// What a service is opened with.
#[repr(C)]
#[derive(Clone, Copy)]
pub struct ErtSettings {
    /// The size of this struct, `SETTINGS_SIZE`.
    pub size: u32,
    /// 0, 1 and 2: no time warp, a single one, and multi time warp.
    pub mode: u32,
    /// Whether time correction is on: not 0.
    pub correction: u32,
    pub schedulers: u32,
    pub processes: u32,
    pub slots: u32,
    pub callers: u32,
    /// How many slots of its wheel a start looks at that knows of none that is free.
    pub looks: u32,
    /// Monotonic time at the opening, in nanoseconds.
    pub start: i64,
    pub first: ErtReading,
}

/// The size of the settings in C, in bytes.
pub const SETTINGS_SIZE: u32 = 56;

impl ErtReading {
    /// The reading, as a service takes it.
    pub(crate) fn read(&self) -> Reading
        ensures { result ≡ reading_as self.now }
    {
        Reading {
            mono: self.mono,
            sys: self.sys,
        }
    }
}

impl ErtSettings {
    /// The settings of a service, or why they are refused.
    pub(crate) fn read(&self) -> Result<Settings, i32>
        ensures { ReadsSettings self.now result }
    {
        if self.size != SETTINGS_SIZE {
            return Err(BAD_SIZE);
        }
        let Some(mode) = mode_at(self.mode) else {
            return Err(BAD_MODE);
        };
        let settings = self.with_mode(mode);
        match settings.check() {
            Ok(()) => Ok(settings),
            Err(fault) => Err(status_of(fault)),
        }
    }

    fn with_mode(&self, mode: Mode) -> Settings
        ensures { result ≡ settings_as self.now mode }
    {
        Settings {
            mode,
            correction: self.correction != 0,
            start: self.start,
            schedulers: self.schedulers,
            processes: self.processes,
            slots: self.slots,
            looks: self.looks,
            callers: self.callers,
            first: self.first.read(),
        }
    }
}

fn mode_at(mode: u32) -> Option<Mode>
    ensures { result ≡ mode_at mode }
{
    match mode {
        0 => Some(Mode::No),
        1 => Some(Mode::Single),
        2 => Some(Mode::Multi),
        _ => None,
    }
}

fn status_of(fault: SettingsFault) -> i32
    ensures { result ≡ status_of fault }
{
    match fault {
        SettingsFault::Start => BAD_START,
        SettingsFault::First => BAD_READING,
        SettingsFault::Count => BAD_COUNT,
    }
}
