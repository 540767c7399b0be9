ghost use Rattle.std.specs.Prelude.{◌≡◌, ◌<◌, ◌≤◌, Option};
ghost use Rattle.ert_defs.specs.Mails as mails;

use crate::settings::Settings;
use crate::timer::{Kind, TimerRef, TimerRow};

/// A message in the mailbox of a process.
#[derive(Clone, Copy, Debug, PartialEq, Eq)]
pub enum Mail {
    /// A wrapped timer expired.
    Timeout { timer: TimerRef, msg: u64 },
    /// A bare timer expired.
    Bare { msg: u64 },
    /// The answer to an asynchronous cancel: the milliseconds left, or nothing.
    CancelDone { timer: TimerRef, left: Option<u64> },
    /// The answer to an asynchronous read.
    ReadDone { timer: TimerRef, left: Option<u64> },
    /// The time offset changed (`erlang` module reference, `monitor`, type `time_offset`).
    Change { monitor: u32, offset: i64 },
}

impl Mail {
    /// The message of an expired timer.
    pub fn of_expired(expired: &TimerRow) -> Mail
        ensures { result ≡ mails.message_of expired.now }
    {
        match expired.kind {
            Kind::Wrapped => Mail::Timeout {
                timer: expired.timer,
                msg: expired.msg,
            },
            Kind::Bare => Mail::Bare { msg: expired.msg },
        }
    }

    /// The answer to a request.
    pub fn of_answer(request: &Request, left: Option<u64>) -> Mail
        ensures { result ≡ mails.answer_by request.now.kind request.now.timer left }
    {
        let timer = request.timer;
        match request.kind {
            RequestKind::Cancel => Mail::CancelDone { timer, left },
            RequestKind::Read => Mail::ReadDone { timer, left },
        }
    }
}

/// A monitor of the time offset that stands (`erlang` module reference, `monitor`, type `time_offset`).
#[derive(Clone, Copy, Debug, PartialEq, Eq)]
pub struct Monitor {
    /// Unique among those that its process ever had.
    pub number: u32,
    /// The offset that its process was last told, in nanoseconds.
    pub told: i64,
}

/// What an asynchronous request asks for (`erlang` module reference, `cancel_timer` and `read_timer`,
/// option `async`).
#[derive(Clone, Copy, Debug, PartialEq, Eq)]
pub enum RequestKind {
    Cancel,
    Read,
}

/// An asynchronous cancel or read of a timer, for the scheduler that manages it.
#[derive(Clone, Copy, Debug, PartialEq, Eq)]
pub struct Request {
    pub kind: RequestKind,
    /// Any reference, in range or not.
    pub timer: TimerRef,
    /// The process that gets the answer.
    pub reply_to: u32,
    /// Whether an answer is sent at all.
    pub info: bool,
}

impl Request {
    /// The number of the inbox that the request goes to: that of its timer's scheduler, and the first where
    /// there is no such scheduler.
    pub fn inbox(&self, settings: &Settings) -> u32
        requires { 1 ≤ settings.now.schedulers }
        ensures value { result ≡ mails.inbox_for settings.now self.now }
        ensures in_range { result < settings.now.schedulers }
    {
        let wheel = self.timer.wheel;
        if wheel < settings.schedulers {
            wheel
        } else {
            0
        }
    }
}
