use ert_defs::{Mail, Request, TimerRef};

/// What a load of the time word records.
#[derive(Clone, Copy, Debug, PartialEq, Eq)]
pub enum TimeCarry {
    /// The time was read.
    Look,
    /// All timers of the scheduler's wheel that were due at `to` milliseconds have been settled.
    Advanced {
        to: u64,
    },
    /// A request was put into the inbox of a wheel.
    Ask {
        wheel: u32,
        request: Request,
    },
    /// The first request of the scheduler's inbox was taken into its hand.
    Pick {
        got: Option<Request>,
    },
    /// The request in the scheduler's hand was answered to a process.
    Answer {
        left: Option<u64>,
        process: u32,
    },
    /// A monitor was removed, where it stood.
    Unwatch {
        process: u32,
        monitor: u32,
        was: bool,
    },
    /// The first message of a mailbox was taken.
    Take {
        process: u32,
        got: Option<Mail>,
    },
}

/// What a load of the offset word records.
#[derive(Clone, Copy, Debug, PartialEq, Eq)]
pub enum OffsetCarry {
    /// The offset was read.
    Off,
    /// A monitor of the offset was made, of this number among those of the process.
    Watch { process: u32, monitor: u32 },
    /// A process was told the offset, for each monitor that it was new to.
    Tell { process: u32 },
}

/// What a load of a slot's word records.
#[derive(Clone, Copy, Debug, PartialEq, Eq)]
pub enum TimerCarry {
    /// The last timer of a slot was looked at.
    Probe { wheel: u32, slot: u32 },
    /// A timer was read (`erlang` module reference, `read_timer`).
    Peek { timer: TimerRef },
}

/// How a timer is settled, or handed over once it has expired.
#[derive(Clone, Copy, Debug, PartialEq, Eq)]
pub enum Settle {
    /// It is cancelled (`erlang` module reference, `cancel_timer`).
    Cancel,
    /// It expires.
    Expire,
    /// It is cancelled because its destination has exited.
    Orphan,
    /// It had expired, and its message is in the mailbox of its destination.
    Deliver,
    /// It had expired, and its destination has exited.
    Drop,
}
