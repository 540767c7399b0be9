ghost use Rattle.std.specs.Prelude.{◌≡◌, ◌++◌};
ghost use Rattle.ert_ops.specs.{Races.IsCallersOp, Ranges.IsOpInRange, Labels.ref_of};
ghost use Rattle.ert_program.specs.Workers.{AnswersOwn};
ghost use Rattle.ert_script.specs.Doing.{IsTimerOf};
ghost use Rattle.ert_table.specs.Desks.{front_of};

use crate::races::session_doer::SessionDoer;
use ert_defs::{NoMemory, TimerRef};
use ert_locks::DeskName;
use ert_ops::{Op, Reply};
use ert_script::{LabelMap, NO_TIMER, do_op, label_asked};
use std::sync::Wait;

/// Does one op as a caller. `known` has the labels that were bound before its list, and `own` those of the list.
/// A start binds its label once its timer was started.
///
/// If memory runs out, the timer of a start was started, and its label isn't bound; of another op nothing was
/// done.
pub(crate) fn do_one<L: DeskName, R: Wait>(
    doer: &mut SessionDoer<L, R>,
    known: &LabelMap,
    own: &mut LabelMap,
    op: &Op,
) -> Result<Reply, NoMemory>
    requires callers { IsCallersOp op.now }
    requires range { IsOpInRange L.settings op.now }
    ensures number { doer.new.session.seat.number ≡ doer.old.session.seat.number }
    ensures answer { AnswersOwn L.settings doer.old.session.seat.number known.now own.old op.now result own.new
        (front_of doer.old.session.seat.pass) (front_of doer.new.session.seat.pass) }
{
    let timer = timer_in(known, own, op);
    match do_op(doer, op, timer) {
        Ok(reply) => match own.bind_started(op, &reply) {
            Ok(()) => Ok(reply),
            Err(e) => Err(e),
        },
        Err(e) => Err(e),
    }
}

/// The timer that an op cancels, reads or asks for: by the labels that were bound before the list, and else by its
/// own. A label that isn't bound stands for a reference that never named a timer.
fn timer_in(known: &LabelMap, own: &LabelMap, op: &Op) -> TimerRef
    ensures { IsTimerOf (known.now ++ own.now) op.now result }
{
    match label_asked(op) {
        Some(label) => timer_of(known, own, label),
        None => NO_TIMER,
    }
}

fn timer_of(known: &LabelMap, own: &LabelMap, label: u32) -> TimerRef
    ensures { ref_of (known.now ++ own.now) label ≡ result }
{
    match known.find(label) {
        Some(timer) => timer,
        None => own.reference(label),
    }
}
