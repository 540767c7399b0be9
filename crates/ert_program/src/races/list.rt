//! A list of ops.
ghost use Rattle.std.specs.Prelude.{◌≡◌, IfOk, OnErr};
ghost use Rattle.ert_ops.specs.Races.{MayDo};
ghost use Rattle.ert_program.specs.Workers.{DoesWhole, DoesSome};
ghost use Rattle.ert_table.specs.Desks.{front_of};

use crate::races::gates::Gate;
use crate::races::op::do_one;
use crate::races::session_doer::SessionDoer;
use ert_defs::NoMemory;
use ert_locks::DeskName;
use ert_ops::{Op, Reply};
use ert_script::LabelMap;
use std::alloc::Global;
use std::sync::Wait;

/// What a list of ops has done.
#[derive(Drop)]
pub struct ListDone {
    /// The replies, in order.
    pub replies: Vec<Reply>,
    /// The labels that the list's own starts bound, in order, each with its timer.
    pub own: LabelMap,
}

/// Does a list of ops as a caller, one after the other. `known` has the labels that were bound before; a label
/// that the list binds stands after them. Before each op it passes the gate: its worker's number is that of the
/// caller, or above those of the schedulers, and the ops count from 1.
///
/// If memory runs out, it has stopped at an op, and what was done stays done: some first ops, and of the next
/// what it makes before it takes memory.
pub(crate) fn do_list<L: DeskName, R: Wait, G: Gate>(
    alloc: Global,
    doer: &mut SessionDoer<L, R>,
    known: &LabelMap,
    ops: &[Op],
    gate: &G,
) -> Result<ListDone, NoMemory>
    requires { MayDo L.settings ops.now }
    ensures number { doer.new.session.seat.number ≡ doer.old.session.seat.number }
    ensures done { IfOk result (λ done. DoesWhole L.settings doer.old.session.seat.number known.now ops.now done (front_of doer.old.session.seat.pass) (front_of doer.new.session.seat.pass)) }
    ensures stops { OnErr result (DoesSome L.settings doer.old.session.seat.number known.now ops.now (front_of doer.old.session.seat.pass) (front_of doer.new.session.seat.pass)) }
{
    let number = doer.session.seat.number;
    let worker = if number == 0 {
        0
    } else {
        doer.session.service.settings().schedulers + number
    };
    let mut own = LabelMap::new(alloc);
    let mut replies = Vec::new(alloc);
    for op in ops {
        gate.before(worker, replies.len() as u64 + 1);
        let reply = match do_one(doer, known, &mut own, op) {
            Ok(reply) => reply,
            Err(e) => return Err(e),
        };
        if replies.push(reply).is_err() {
            return Err(NoMemory);
        }
    }
    Ok(ListDone { replies, own })
}
