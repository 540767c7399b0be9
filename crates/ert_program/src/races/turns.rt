//! The turns of a scheduler.
ghost use Rattle.std.specs.Prelude.{◌≡◌, OnOk, OnErr};
ghost use Rattle.ert_table.specs.Desks.{front_of};
ghost use Rattle.ert_program.specs.Workers.{TurnsSoOften, TurnsLess};

use crate::races::gates::Gate;
use ert_defs::NoMemory;
use ert_locks::DeskName;
use ert_service::SchedSession;
use std::sync::Wait;

/// Makes so many turns of a scheduler, one after the other. Before each it passes the gate, as this worker;
/// the turns count from 1.
///
/// If memory runs out, it has stopped in a turn, and what was done stays done.
pub(crate) fn do_turns<L: DeskName, R: Wait, G: Gate>(
    session: &mut SchedSession<L, R>,
    turns: u64,
    worker: u32,
    gate: &G,
) -> Result<(), NoMemory>
    ensures number { session.new.seat.part.wheel ≡ session.old.seat.part.wheel }
    ensures turned { OnOk result (TurnsSoOften L.settings session.old.seat.part.wheel turns (front_of session.old.seat.pass) (front_of session.new.seat.pass)) }
    ensures stops { OnErr result (TurnsLess L.settings session.old.seat.part.wheel turns (front_of session.old.seat.pass) (front_of session.new.seat.pass)) }
{
    for done in 0..turns {
        gate.before(worker, done + 1);
        if let Err(e) = session.turn() {
            return Err(e);
        }
    }
    Ok(())
}
