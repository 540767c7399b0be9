//! The arguments of ops.
ghost use Rattle.std.specs.Prelude.{◌≡◌, Some, None};
ghost use Rattle.ert_explain.specs.Params.{signature_of, arity_of, param_at, first_param, second_param, third_param, start_param};

use crate::op_name::OpName;

/// What an argument of an op says.
#[derive(Clone, Copy, PartialEq, Eq)]
pub enum Param {
    /// Monotonic time of the OS, in nanoseconds: an integer from 0 to below 2^62.
    Mono,
    /// System time of the OS, in nanoseconds: an integer above -2^61 and below 2^61.
    Sys,
    /// A time to convert: an integer.
    Time,
    /// The unit that a time is converted from: its name, or its parts per second.
    From,
    /// The unit that it is converted to.
    To,
    /// The label of a timer: an integer from 0 to 999,999.
    Label,
    /// A scheduler: an integer from 0 to below their count.
    Scheduler,
    /// A process: an integer from 0 to below their count.
    Process,
    /// A monitor: an integer from 0 to below 2^32.
    Monitor,
    /// What milliseconds count from: `"rel"` or `"abs"`.
    Origin,
    /// Milliseconds: an integer.
    Milliseconds,
    /// A message: an integer from 0 to below 2^64.
    Message,
    /// Whether the process is told what was left: `true` or `false`.
    Told,
}

/// The arguments of an op, one after another.
#[derive(Clone, Copy)]
pub enum Signature {
    /// None.
    Nothing,
    /// `mono` and `sys`.
    Reading,
    /// A time, and the units that it is converted from and to.
    Conversion,
    /// A label, a scheduler, an origin, milliseconds, a process and a message.
    Start,
    /// A label.
    OfTimer,
    /// A label and a process.
    Ask,
    /// A label, a process, and whether that is told.
    AskTold,
    /// A scheduler.
    OfScheduler,
    /// A process.
    OfProcess,
    /// A process and a monitor.
    OfMonitor,
}

/// The arguments of an op of format 1 or 2.
pub(crate) fn signature_of(is_one: bool, op: OpName) -> Signature
    ensures { result ≡ signature_of is_one op }
{
    match op {
        OpName::Tick | OpName::Check | OpName::Finalize => Signature::Reading,
        OpName::Time | OpName::System | OpName::Offset | OpName::Info => Signature::Nothing,
        OpName::Convert => Signature::Conversion,
        OpName::Start | OpName::SendAfter => Signature::Start,
        OpName::Cancel | OpName::Read | OpName::CancelQuiet => Signature::OfTimer,
        OpName::CancelAsync | OpName::ReadAsync if is_one => Signature::Ask,
        OpName::CancelAsync | OpName::ReadAsync => Signature::AskTold,
        OpName::Serve | OpName::Advance | OpName::Deliver | OpName::Turn => Signature::OfScheduler,
        OpName::Demonitor => Signature::OfMonitor,
        OpName::Notify | OpName::Receive | OpName::Exit => Signature::OfProcess,
        OpName::Alive | OpName::Monitor => Signature::OfProcess,
    }
}

impl Signature {
    /// How many arguments there are.
    pub(crate) fn arity(self) -> usize
        ensures { result ≡ arity_of self }
    {
        match self {
            Signature::Nothing => 0,
            Signature::OfTimer | Signature::OfScheduler | Signature::OfProcess => 1,
            Signature::Reading | Signature::Ask | Signature::OfMonitor => 2,
            Signature::Conversion | Signature::AskTold => 3,
            Signature::Start => 6,
        }
    }

    /// The argument of this index.
    pub(crate) fn param(self, index: usize) -> Option<Param>
        ensures { result ≡ param_at self index }
    {
        match self {
            Signature::Nothing => None,
            Signature::Reading => second_of(index, Param::Mono, Param::Sys),
            Signature::Conversion => third_of(index, Param::Time, Param::From, Param::To),
            Signature::Start => start_at(index),
            Signature::OfTimer => first_of(index, Param::Label),
            Signature::Ask => second_of(index, Param::Label, Param::Process),
            Signature::AskTold => third_of(index, Param::Label, Param::Process, Param::Told),
            Signature::OfScheduler => first_of(index, Param::Scheduler),
            Signature::OfProcess => first_of(index, Param::Process),
            Signature::OfMonitor => second_of(index, Param::Process, Param::Monitor),
        }
    }
}

/// The argument of this index, of one.
fn first_of(index: usize, first: Param) -> Option<Param>
    ensures { result ≡ first_param index first }
{
    if index == 0 { Some(first) } else { None }
}

/// The same, of two.
fn second_of(index: usize, first: Param, second: Param) -> Option<Param>
    ensures { result ≡ second_param index first second }
{
    if index == 1 {
        Some(second)
    } else {
        first_of(index, first)
    }
}

/// The same, of three.
fn third_of(index: usize, first: Param, second: Param, third: Param) -> Option<Param>
    ensures { result ≡ third_param index first second third }
{
    if index == 2 {
        Some(third)
    } else {
        second_of(index, first, second)
    }
}

/// The argument of this index, of a start.
fn start_at(index: usize) -> Option<Param>
    ensures { result ≡ start_param index }
{
    if index == 3 {
        return Some(Param::Milliseconds);
    }
    if index == 4 {
        return Some(Param::Process);
    }
    if index == 5 {
        return Some(Param::Message);
    }
    third_of(index, Param::Label, Param::Scheduler, Param::Origin)
}
