//! What the calls of the service answer, where no lower crate has a type for it.

ghost use Rattle.std.specs.Prelude.{◌≡◌};

use ert_defs::{Mail, NoMemory};

/// Why a timer wasn't started. No timer changed.
#[derive(Clone, Copy, Debug, PartialEq, Eq)]
pub enum StartErr {
    /// The time is negative, or the deadline is outside 0 to 8796093022207 milliseconds after the start time
    /// of the service (`erlang` module reference, `start_timer`). This is tested first.
    BadArg,
    /// As many slots of the wheel as the settings' `looks` were looked at, or all where there are fewer, and each was
    /// taken or rests: it was used 262,143 times in its round, and the deadline of one of its timers hasn't passed. Or
    /// the wheel has had 2^53 timers.
    Full,
    NoMemory,
}

impl From<NoMemory> for StartErr {
    fn from(_error: NoMemory) -> StartErr {
        StartErr::NoMemory
    }
}

/// Why a timer wasn't given a new deadline. No timer changed.
#[derive(Clone, Copy, Debug, PartialEq, Eq)]
pub enum RestartErr {
    /// The start has no deadline at the time of the call (`StartErr::BadArg`). This is tested first.
    BadArg,
    /// The reference names no timer that is armed.
    NotArmed,
    /// The timer is armed as before, for want of a slot: it has used its own for the 262,143rd time in its round, or is of
    /// another wheel than the new one, and there is none for that (`StartErr::Full`). Or the wheel has had 2^53 timers.
    Full,
}

/// How much room the wheel of a scheduler has.
#[derive(Clone, Copy, Debug, PartialEq, Eq)]
pub struct Room {
    /// How many slots a timer can be started in now: those that are neither taken nor rest.
    pub free: u32,
    /// Of the slots that rest and aren't taken, the least time at which one rests no longer, in milliseconds
    /// after the start time of the service; None where there is none.
    pub ready: Option<u64>,
}

/// What an advance that tries so many timers at most has left.
#[derive(Clone, Copy, Debug, PartialEq, Eq)]
pub enum Left {
    /// No timer is due by the time that it tells.
    Nothing,
    /// More timers are due by then: just so many were tried.
    Due,
    /// The wheel hasn't come to that time. As many rows as may move in a call have moved or were put in order, and more are left:
    /// rows of later timers, or rows that are due by then.
    Moving,
}

impl Left {
    ghost use Rattle.ert_effects.specs.SomeCalls.{is_more};

    /// Whether the next advance goes on with something.
    pub fn is_more(self) -> bool
        ensures { result ≡ is_more self }
    {
        match self {
            Left::Nothing => false,
            Left::Due | Left::Moving => true,
        }
    }
}

/// What became of an expired timer.
#[derive(Clone, Copy, Debug, PartialEq, Eq)]
pub enum Handed {
    /// Its message is in the mailbox of its destination.
    Put,
    /// Its destination had exited, and its message was thrown away.
    Dropped,
}

/// What was taken from the mailbox of a process.
#[derive(Clone, Copy, Debug, PartialEq, Eq)]
pub enum Taken {
    /// The first message.
    Mail(Mail),
    /// There was none.
    Empty,
    /// The process had exited, whatever its mailbox holds.
    Exited,
}

/// Why no monitor of the time offset was made. Nothing changed.
#[derive(Clone, Copy, Debug, PartialEq, Eq)]
pub enum MonitorErr {
    /// 64 monitors of the process stand, or the number 4294967295 was given.
    Full,
    NoMemory,
}

impl From<NoMemory> for MonitorErr {
    fn from(_error: NoMemory) -> MonitorErr {
        MonitorErr::NoMemory
    }
}

/// How many requests a scheduler answers in a turn, at most (profile).
pub const SERVED_A_TURN: u32 = 64;

/// What a scheduler did in a turn.
#[derive(Clone, Copy, Debug, PartialEq, Eq)]
pub struct Turned {
    /// The requests that it answered, 0 to `SERVED_A_TURN`.
    pub served: u32,
    /// To where its wheel was advanced, in milliseconds after the start time of the service.
    pub to: u64,
    /// The timers that expired by the turn.
    pub expired: u32,
    /// The expired timers whose message it put into a mailbox.
    pub put: u32,
    /// The expired timers whose message it threw away, since their destination had exited.
    pub dropped: u32,
}
