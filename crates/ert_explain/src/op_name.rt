//! The names of ops, and where each may stand.
ghost use Rattle.std.specs.Prelude.{◌≡◌, Some, None};
ghost use Rattle.ert_explain.specs.OpNames.{looked_up, op_called, may_stand, is_keepers, is_scheds, is_late, keeper_names, sched_names, clock_names, process_names, timer_names, late_names};

use crate::place::ListName;

/// The name of an op.
#[derive(Clone, Copy)]
pub enum OpName {
    Tick,
    Check,
    Finalize,
    Notify,
    Serve,
    Advance,
    Deliver,
    Turn,
    Time,
    System,
    Offset,
    Info,
    Convert,
    Receive,
    Exit,
    Alive,
    Monitor,
    Demonitor,
    Start,
    Cancel,
    Read,
    CancelAsync,
    ReadAsync,
    SendAfter,
    CancelQuiet,
}

/// The op of this name, in whichever format and list.
pub(crate) fn op_called(name: &str) -> Option<OpName>
    ensures { result ≡ op_called name.now }
{
    keeper_called(name)
        .or(sched_called(name))
        .or(clock_called(name))
        .or(process_called(name))
        .or(timer_called(name))
        .or(late_called(name))
}

/// The op of this name that the clock's thread may do.
#[tactic(auto, unfolding(crate::specs::OpNames::keeper_names))]
fn keeper_called(name: &str) -> Option<OpName>
    ensures { result ≡ looked_up name.now keeper_names }
{
    match name {
        "tick" => Some(OpName::Tick),
        "check" => Some(OpName::Check),
        "finalize" => Some(OpName::Finalize),
        "notify" => Some(OpName::Notify),
        _ => None,
    }
}

/// The op of this name that a scheduler does.
#[tactic(auto, unfolding(crate::specs::OpNames::sched_names))]
fn sched_called(name: &str) -> Option<OpName>
    ensures { result ≡ looked_up name.now sched_names }
{
    match name {
        "serve" => Some(OpName::Serve),
        "advance" => Some(OpName::Advance),
        "deliver" => Some(OpName::Deliver),
        "turn" => Some(OpName::Turn),
        _ => None,
    }
}

/// The op of this name that asks the clock.
#[tactic(auto, unfolding(crate::specs::OpNames::clock_names))]
fn clock_called(name: &str) -> Option<OpName>
    ensures { result ≡ looked_up name.now clock_names }
{
    match name {
        "time" => Some(OpName::Time),
        "system" => Some(OpName::System),
        "offset" => Some(OpName::Offset),
        "info" => Some(OpName::Info),
        "convert" => Some(OpName::Convert),
        _ => None,
    }
}

/// The op of this name that a process does.
#[tactic(auto, unfolding(crate::specs::OpNames::process_names))]
fn process_called(name: &str) -> Option<OpName>
    ensures { result ≡ looked_up name.now process_names }
{
    match name {
        "receive" => Some(OpName::Receive),
        "exit" => Some(OpName::Exit),
        "alive" => Some(OpName::Alive),
        "monitor" => Some(OpName::Monitor),
        "demonitor" => Some(OpName::Demonitor),
        _ => None,
    }
}

/// The op of this name on a timer that is in both formats.
#[tactic(auto, unfolding(crate::specs::OpNames::timer_names))]
fn timer_called(name: &str) -> Option<OpName>
    ensures { result ≡ looked_up name.now timer_names }
{
    match name {
        "start" => Some(OpName::Start),
        "cancel" => Some(OpName::Cancel),
        "read" => Some(OpName::Read),
        "cancel_async" => Some(OpName::CancelAsync),
        "read_async" => Some(OpName::ReadAsync),
        _ => None,
    }
}

/// The op of this name that is in format 2 only.
#[tactic(auto, unfolding(crate::specs::OpNames::late_names))]
fn late_called(name: &str) -> Option<OpName>
    ensures { result ≡ looked_up name.now late_names }
{
    match name {
        "send_after" => Some(OpName::SendAfter),
        "cancel_quiet" => Some(OpName::CancelQuiet),
        _ => None,
    }
}

impl OpName {
    /// Whether it may stand in this list.
    pub(crate) fn may_stand(self, list: ListName) -> bool
        ensures { result ≡ may_stand list self }
    {
        match list {
            ListName::Ops => true,
            ListName::Keeper => self.is_keepers(),
            ListName::Caller(_) => !self.is_scheds(),
        }
    }

    /// Whether the clock's thread may do it.
    fn is_keepers(self) -> bool
        ensures { result ≡ is_keepers self }
    {
        match self {
            OpName::Tick | OpName::Check | OpName::Finalize | OpName::Notify => true,
            _ => false,
        }
    }

    /// Whether no caller may do it, since it is for the clock's thread or a scheduler.
    fn is_scheds(self) -> bool
        ensures { result ≡ is_scheds self }
    {
        match self {
            OpName::Tick | OpName::Check | OpName::Finalize => true,
            OpName::Serve | OpName::Advance | OpName::Deliver | OpName::Turn => true,
            _ => false,
        }
    }

    /// Whether it is in format 2 only.
    pub(crate) fn is_late(self) -> bool
        ensures { result ≡ is_late self }
    {
        match self {
            OpName::SendAfter | OpName::CancelQuiet => true,
            _ => false,
        }
    }
}
