use crate::mail::{Mail, Request};
use crate::settings::{OffsetState, Reading};
use crate::timer::{Start, Status, TimerRef};

/// Who makes an entry. Each part of the state belongs to one actor, and changes by its entries alone.
#[derive(Clone, Copy, Debug, PartialEq, Eq)]
pub enum Actor {
    /// The clock.
    Keeper,
    /// The timers of one scheduler.
    Wheel(u32),
    /// The requests that wait for one scheduler.
    Inbox(u32),
    /// One scheduler: the request in its hand, and its expired timers.
    Sched(u32),
    /// The mailbox and the monitors of one process.
    MailOf(u32),
    /// One caller of the service.
    Caller(u32),
}

/// What a tick is for.
#[derive(Clone, Copy, Debug, PartialEq, Eq)]
pub enum Act {
    /// It checks the clock where a check is due.
    Plain,
    /// It checks the clock.
    Force,
    /// It finalizes the time offset, and is no check.
    Finalize,
}

/// What one atomic step did.
#[derive(Clone, Copy)]
#[rattlefmt::skip]
pub enum Event {
    /// An OS reading was taken, and the time became `now`.
    Tick { reading: Reading, act: Act, now: i64 },
    /// The offset and its state were set, as the tick before made due.
    Shift { offset: i64, state: OffsetState },
    /// The time was read.
    Look { now: i64 },
    /// The offset was read.
    Off { offset: i64, state: OffsetState },
    /// A timer was started.
    Arm { timer: TimerRef, start: Start },
    /// The last timer of a slot was looked at.
    Probe { wheel: u32, slot: u32, found: Option<Status> },
    /// A timer was read: the milliseconds left where it was armed.
    Peek { timer: TimerRef, left: Option<u64> },
    /// A timer was cancelled where it was armed: the milliseconds that were left.
    Cancel { timer: TimerRef, left: Option<u64> },
    /// A timer expired.
    Expire { timer: TimerRef },
    /// A timer whose destination has exited was cancelled.
    Orphan { timer: TimerRef },
    /// The message of an expired timer was put into its mailbox.
    Deliver { timer: TimerRef },
    /// The message of an expired timer was thrown away, since its destination has exited.
    Drop { timer: TimerRef },
    /// It was seen whether a process had exited; where `exits` is true it has exited now.
    Mark { process: u32, exits: bool, was: bool },
    /// All timers of a wheel that were due at `to` milliseconds have been settled.
    Advanced { wheel: u32, to: u64 },
    /// A request was put into an inbox.
    Ask { wheel: u32, request: Request },
    /// The first request of an inbox was taken into the scheduler's hand.
    Pick { wheel: u32, got: Option<Request> },
    /// The request in the hand was answered.
    Answer { wheel: u32, left: Option<u64> },
    /// The first message of a mailbox was taken.
    Take { process: u32, got: Option<Mail> },
    /// A monitor was removed, where it stood.
    Unwatch { process: u32, monitor: u32, was: bool },
    /// A monitor of the time offset was made.
    Watch { process: u32, monitor: u32, offset: i64 },
    /// A process was told the offset, for each monitor that it was new to.
    Tell { process: u32, offset: i64 },
}

/// One event of a history, with the actors that made it.
#[derive(Clone, Copy)]
pub struct Entry {
    pub by: Actor,
    pub with: Option<Actor>,
    pub event: Event,
}
