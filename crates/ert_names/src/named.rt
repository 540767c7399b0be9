//! What the calls for names keep and answer, where no lower crate has a type for it.

use ert_defs::{Kind, TimerRef};
use ert_world::Turned;

/// What stays of a start for a name.
#[derive(Drop)]
pub(crate) struct NamedRow {
    pub(crate) name: String,
    pub(crate) msg: u64,
    pub(crate) kind: Kind,
}

/// Why a name wasn't given to a process. No name changed.
#[derive(Clone, Copy, Debug, PartialEq, Eq)]
pub enum NameErr {
    /// The name has no byte or more than 255, or is `undefined`, or is in use; or the process is the
    /// registrar, has exited or has a name (`erlang` module reference, `register`).
    BadArg,
    NoMemory,
}

/// The message of a timer that was started for a name.
#[derive(Clone, Copy, Debug, PartialEq, Eq)]
pub struct NamedMail {
    pub timer: TimerRef,
    pub msg: u64,
    pub kind: Kind,
}

/// What was taken from the named mail of a process.
#[derive(Clone, Copy, Debug, PartialEq, Eq)]
pub enum NamedTaken {
    /// The first.
    Mail(NamedMail),
    /// There was none.
    Empty,
    /// The process had exited, whatever named mail it has.
    Exited,
}

/// What was done in a turn.
#[derive(Clone, Copy, Debug, PartialEq, Eq)]
pub struct NamedTurn {
    /// The turn of the scheduler. Each message for a name counts there as one for the registrar.
    pub turned: Turned,
    /// The messages for a name that are now in the named mail of a process.
    pub handed: u64,
    /// The messages for a name that no process has now. They are gone.
    pub lost: u64,
}
