/// What could stand at a place of a line.
#[derive(Clone, Copy)]
pub enum Wanted {
    /// The word `settings`.
    SettingsWord,
    /// A time warp mode.
    Mode,
    /// A truth value.
    Truth,
    /// A number of 64 bits that may be negative.
    Integer,
    /// A number of 32 bits.
    Small,
    /// A number of 64 bits.
    Natural,
    /// What a tick is for.
    Act,
    /// A state of the offset.
    State,
    /// Where a timer stands, or `none`.
    Found,
    /// What a timer sends.
    Kind,
    /// The word before the time of a timer.
    When,
    /// An actor.
    Actor,
    /// A second actor, or `-`.
    Partner,
    /// The name of an event.
    Event,
    /// What a request asks for.
    RequestKind,
    /// The same, or `none`.
    Picked,
    /// The name of a message, or `none`.
    Taken,
    /// A number of 64 bits, or `none`.
    Left,
    /// The end of the line.
    End,
}

/// Where a line stops being spelled, and what could stand there.
#[derive(Clone, Copy)]
pub struct WordFault {
    /// So many bytes of the line stand before.
    pub before: usize,
    pub wanted: Wanted,
}
