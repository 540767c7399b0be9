//! What an op does, by whoever makes its call.
ghost use Rattle.std.specs.Prelude.{◌≡◌, Ok};
ghost use Rattle.ert_ops.specs.{Races.IsCallersOp, Ranges.IsOpInRange};
ghost use Rattle.ert_script.specs.Doing.{IsAnswered, IsClockOp, IsStartOp, IsTimerOp, IsProcessOp};

use crate::doer::Doer;
use crate::replies::{checked, convert_time, finalized, settings_told, start_told, taken, ticked};
use ert_defs::{Kind, NoMemory, Reading, Request, RequestKind, Start, TimerRef};
use ert_effects::MonitorErr;
use ert_ops::{Op, Reply};

/// Does an op of a caller. `timer` is the timer that the op cancels, reads or asks for; another op makes no use of
/// it.
///
/// If memory runs out, nothing was done.
pub fn do_op<D: Doer>(doer: &mut D, op: &Op, timer: TimerRef) -> Result<Reply, NoMemory>
    requires caller { IsCallersOp op.now }
    requires range { IsOpInRange (D.settings doer.old) op.now }
    requires may { D.may doer.old }
    ensures answer { IsAnswered (D.settings doer.old) (D.way doer.old) (D.number doer.old) op.now timer result (D.history doer.old) (D.history doer.new) }
    ensures stays { D.stays doer.old doer.new }
{
    match *op {
        Op::Tick { .. }
        | Op::Check { .. }
        | Op::Finalize { .. }
        | Op::Time
        | Op::System
        | Op::Offset
        | Op::Info
        | Op::Convert { .. } => Ok(clock_op(doer, op, timer)),
        Op::Start { .. } | Op::SendAfter { .. } => Ok(start_op(doer, op, timer)),
        Op::Cancel { .. }
        | Op::CancelQuiet { .. }
        | Op::Read { .. }
        | Op::CancelAsync { .. }
        | Op::ReadAsync { .. } => timer_op(doer, op, timer),
        _ => process_op(doer, op, timer),
    }
}

/// Does an op on the clock.
fn clock_op<D: Doer>(doer: &mut D, op: &Op, timer: TimerRef) -> Reply
    requires clock { IsClockOp op.now }
    requires range { IsOpInRange (D.settings doer.old) op.now }
    requires may { D.may doer.old }
    ensures answer { IsAnswered (D.settings doer.old) (D.way doer.old) (D.number doer.old) op.now timer (Ok result) (D.history doer.old) (D.history doer.new) }
    ensures stays { D.stays doer.old doer.new }
{
    match *op {
        Op::Tick { mono, sys } => ticked(doer.tick(Reading { mono, sys }, false)),
        Op::Check { mono, sys } => checked(doer.tick(Reading { mono, sys }, true)),
        Op::Finalize { mono, sys } => finalized(doer.finalize(Reading { mono, sys })),
        Op::Time => Reply::Time {
            now: doer.monotonic_time(),
        },
        Op::System => Reply::System {
            time: doer.system_time(),
        },
        Op::Offset => {
            let (offset, state) = doer.time_offset();
            Reply::Offset { offset, state }
        }
        Op::Info => {
            let (offset, state) = doer.time_offset();
            settings_told(doer.settings(), offset, state)
        }
        Op::Convert { time, from, to } => convert_time(time, from, to),
        _ => unreachable!(),
    }
}

/// Does an op of a process.
fn process_op<D: Doer>(doer: &mut D, op: &Op, timer: TimerRef) -> Result<Reply, NoMemory>
    requires may { D.may doer.old }
    requires process { IsProcessOp op.now }
    requires range { IsOpInRange (D.settings doer.old) op.now }
    ensures answer { IsAnswered (D.settings doer.old) (D.way doer.old) (D.number doer.old) op.now timer result (D.history doer.old) (D.history doer.new) }
    ensures stays { D.stays doer.old doer.new }
{
    match *op {
        Op::Notify { process } => match doer.notify(process) {
            Ok(put) => Ok(Reply::Notify { put }),
            Err(e) => Err(e),
        },
        Op::Receive { process } => Ok(taken(doer.take(process))),
        Op::Exit { process } => Ok(Reply::Exit {
            was_alive: doer.exit(process),
        }),
        Op::Alive { process } => Ok(Reply::Alive {
            alive: doer.is_alive(process),
        }),
        Op::Monitor { process } => match doer.monitor(process) {
            Ok(number) => Ok(Reply::Monitor { number }),
            Err(MonitorErr::Full) => Ok(Reply::MonitorFull),
            Err(MonitorErr::NoMemory) => Err(NoMemory),
        },
        Op::Demonitor { process, monitor } => Ok(Reply::Demonitor {
            stood: doer.demonitor(process, monitor),
        }),
        _ => unreachable!(),
    }
}

/// Does an op that starts a timer.
fn start_op<D: Doer>(doer: &mut D, op: &Op, timer: TimerRef) -> Reply
    requires range { IsOpInRange (D.settings doer.old) op.now }
    requires start { IsStartOp op.now }
    requires may { D.may doer.old }
    ensures answer { IsAnswered (D.settings doer.old) (D.way doer.old) (D.number doer.old) op.now timer (Ok result) (D.history doer.old) (D.history doer.new) }
    ensures stays { D.stays doer.old doer.new }
{
    match *op {
        Op::Start {
            wheel,
            when,
            dest,
            msg,
            ..
        } => {
            let start = Start {
                when,
                dest,
                msg,
                kind: Kind::Wrapped,
            };
            start_told(Kind::Wrapped, doer.start(wheel, &start))
        }
        Op::SendAfter {
            wheel,
            when,
            dest,
            msg,
            ..
        } => {
            let start = Start {
                when,
                dest,
                msg,
                kind: Kind::Bare,
            };
            start_told(Kind::Bare, doer.start(wheel, &start))
        }
        _ => unreachable!(),
    }
}

/// Does an op on a timer.
fn timer_op<D: Doer>(doer: &mut D, op: &Op, timer: TimerRef) -> Result<Reply, NoMemory>
    requires range { IsOpInRange (D.settings doer.old) op.now }
    requires timer { IsTimerOp op.now }
    requires may { D.may doer.old }
    ensures answer { IsAnswered (D.settings doer.old) (D.way doer.old) (D.number doer.old) op.now timer result (D.history doer.old) (D.history doer.new) }
    ensures stays { D.stays doer.old doer.new }
{
    match *op {
        Op::Cancel { .. } => Ok(Reply::Cancel {
            left: doer.cancel_timer(timer),
        }),
        Op::CancelQuiet { .. } => {
            let _ = doer.cancel_timer(timer);
            Ok(Reply::CancelQuiet)
        }
        Op::Read { .. } => Ok(Reply::Read {
            left: doer.read_timer(timer),
        }),
        Op::CancelAsync { process, info, .. } => {
            match doer.ask(request_for(RequestKind::Cancel, timer, process, info)) {
                Ok(()) => Ok(Reply::CancelAsync),
                Err(e) => Err(e),
            }
        }
        Op::ReadAsync { process, info, .. } => {
            match doer.ask(request_for(RequestKind::Read, timer, process, info)) {
                Ok(()) => Ok(Reply::ReadAsync),
                Err(e) => Err(e),
            }
        }
        _ => unreachable!(),
    }
}

fn request_for(kind: RequestKind, timer: TimerRef, reply_to: u32, info: bool) -> Request
    ensures { result ≡ record { kind = kind; timer = timer; reply_to = reply_to; info = info } }
{
    Request {
        kind,
        timer,
        reply_to,
        info,
    }
}
