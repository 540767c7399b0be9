use ert_defs::{Actor, Mail, OffsetState, Request, Status, TimerRef};

/// Who may make an event.
#[derive(Clone, Copy)]
pub enum Maker {
    /// The clock.
    Clock,
    /// The scheduler of this number.
    Scheduler(u32),
    /// A caller.
    AnyCaller,
    /// A caller or a scheduler.
    User,
    /// A caller, or the scheduler of this number.
    CallerOr(u32),
    /// The clock, a caller or a scheduler.
    Reader,
}

/// With whom an event is made.
#[derive(Clone, Copy)]
pub enum Partner {
    /// Nobody.
    Nobody,
    /// This actor.
    Exactly(Actor),
    /// A caller.
    SomeCaller,
    /// The mailbox of a process.
    SomeMailbox,
}

/// What is counted by the settings.
#[derive(Clone, Copy)]
pub enum Counted {
    Callers,
    Schedulers,
    Processes,
    /// The slots of each scheduler.
    Slots,
}

/// Why an entry can't follow: the condition that it breaks, with the values that decide. Times and offsets
/// are in nanoseconds, deadlines and what is left in milliseconds.
#[derive(Clone, Copy)]
pub enum Reason {
    /// Its event is made by others only.
    NotBy(Maker),
    /// Its event is made with others only.
    NotWith(Partner),
    /// It names one whose number isn't below their count.
    TooHigh {
        thing: Counted,
        number: u32,
        count: u32,
    },

    /// The shift that is due has to come before a tick.
    ShiftFirst {
        offset: i64,
        state: OffsetState,
    },
    /// The reading of a tick isn't valid.
    BadReading,
    /// Only a preliminary offset can be finalized, and the clock's has this state.
    NotPreliminary {
        state: OffsetState,
    },
    /// A tick with its reading comes to another time, this one.
    OtherTick {
        time: i128,
    },
    /// The shift that a tick would make due takes the offset past its limits.
    OffsetPast {
        offset: i128,
        state: OffsetState,
    },
    /// This shift is due, or none.
    OtherShift {
        due: Option<(i64, OffsetState)>,
    },
    /// The clock's time.
    OtherTime {
        now: i64,
    },
    /// The clock's offset.
    OtherOffset {
        offset: i64,
    },
    /// The state of the clock's offset.
    OtherState {
        state: OffsetState,
    },

    /// The last timer of the slot stands here, so that the slot is taken.
    SlotTaken {
        status: Status,
    },
    /// The next generation of the slot.
    OtherGeneration {
        next: u64,
    },
    /// The slot rests until so many milliseconds after the start time.
    Rests {
        until: u64,
    },
    /// The start is refused: its deadline would be outside the limits, or its delay is negative.
    NoDeadline,
    /// The wheel has had as many timers as it may.
    WheelUsed,
    /// The last timer of the slot stands here, or the slot had none.
    OtherStatus {
        status: Option<Status>,
    },
    /// So much is left of the timer, or nothing since it isn't armed.
    OtherLeft {
        left: Option<u128>,
    },
    /// The timer stands here, or was never armed.
    NotArmed {
        status: Option<Status>,
    },
    /// The timer's deadline is later than the last look of its scheduler, rounded down.
    NotDue {
        scheduler: u32,
        deadline: u64,
        looked: i128,
    },
    /// An armed timer of the scheduler with an earlier deadline, so that it comes first.
    Later {
        first: TimerRef,
        deadline: u64,
    },
    /// An armed timer of the scheduler comes first.
    NotNext,
    /// The destination of the timer hasn't exited.
    NotExited {
        dest: u32,
    },
    /// No expired timer of the scheduler waits.
    NoneWaits,
    /// The first of the scheduler's expired timers is another.
    OtherWaits {
        first: TimerRef,
    },
    /// The destination of the timer is another process.
    OtherDest {
        dest: u32,
    },
    /// The last look of the scheduler, rounded down.
    OtherMilliseconds {
        looked: i128,
    },
    /// An armed timer of the wheel that was due.
    StillArmed {
        timer: TimerRef,
        deadline: u64,
    },

    /// Whether the process has exited.
    OtherExit {
        exited: bool,
    },
    /// The request in the scheduler's hand has to be answered first.
    HandFull {
        request: Request,
    },
    /// The first request that waits, or that none does.
    OtherRequest {
        first: Option<Request>,
    },
    /// No request is in the scheduler's hand.
    HandEmpty,
    /// The process that the request in the hand has the answer sent to.
    OtherAsker {
        process: u32,
    },
    /// What the scheduler's last step on the request told, or that there was none.
    OtherOutcome {
        outcome: Option<Option<u64>>,
    },
    /// The request names no timer in range, so nothing is left of it.
    NothingLeft,
    /// The first message of the mailbox, or that there is none.
    OtherMail {
        first: Option<Mail>,
    },
    /// Whether the monitor stands.
    OtherMonitor {
        stands: bool,
    },
    /// The number of the process's next monitor.
    OtherNumber {
        next: u64,
    },
    /// So many monitors of the process stand, at least 64.
    TooMany {
        count: usize,
    },
}
