use ert_defs::{Mail, Mode, OffsetState, TimerRef};
use ert_effects::Turned;

/// What an op answers. Times and offsets are in nanoseconds, what is left of a timer in milliseconds.
#[derive(Clone, Copy, Debug, PartialEq, Eq)]
#[rattlefmt::skip]
pub enum Reply {
    /// The time after a tick, and the new offset where it moved.
    Tick { now: i64, shift: Option<i64> },
    /// A tick was refused, since it would have moved the offset to this value, outside its limits.
    TickWide { value: i128 },
    /// As for a tick.
    Check { now: i64, shift: Option<i64> },
    CheckWide { value: i128 },
    /// The state before a finalization, the time, and the new offset where the state was preliminary.
    Finalize { old: OffsetState, now: i64, shift: Option<i64> },
    FinalizeWide { value: i128 },
    /// Monotonic time.
    Time { now: i64 },
    /// System time.
    System { time: i64 },
    Offset { offset: i64, state: OffsetState },
    /// The settings, with the offset as it is.
    Info { start: i64, end: i64, mode: Mode, correction: bool, offset: i64, state: OffsetState },
    /// A time in another unit.
    Convert { value: i64 },
    /// It doesn't fit 64 bits.
    ConvertTooWide,
    /// The timer that was started.
    StartOk { timer: TimerRef },
    /// The time of the start is outside its limits.
    StartBadArg,
    /// Every slot is taken or rests.
    StartFull,
    /// As for a start.
    SendAfterOk { timer: TimerRef },
    SendAfterBadArg,
    SendAfterFull,
    /// The milliseconds that were left, or None where the timer wasn't armed.
    Cancel { left: Option<u64> },
    CancelQuiet,
    /// As for a cancel.
    Read { left: Option<u64> },
    /// The request was put into the inbox.
    CancelAsync,
    ReadAsync,
    /// Whether there was a request.
    Serve { served: bool },
    /// To how many milliseconds after the start time the wheel came, and how many timers expired.
    Advance { to: u64, expired: u32 },
    /// How many messages were put into mailboxes, and how many dropped.
    Deliver { put: u32, dropped: u32 },
    Turn { turned: Turned },
    /// The message that was taken.
    Received { mail: Mail },
    ReceivedEmpty,
    /// The process has exited.
    ReceivedExited,
    Exit { was_alive: bool },
    Alive { alive: bool },
    /// The number of the new monitor, from 0.
    Monitor { number: u32 },
    /// 64 monitors stand, or the last number was given.
    MonitorFull,
    Demonitor { stood: bool },
    /// How many messages were put into the mailbox.
    Notify { put: u32 },
}
