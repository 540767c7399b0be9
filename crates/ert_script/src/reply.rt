ghost use Rattle.std.specs.Prelude.{◌≡◌, IfOk, OnErr};
ghost use Rattle.ert_defs.specs.Readings.{IsValid};
ghost use Rattle.ert_ops.specs.{Races.IsCallersOp, Ranges.IsOpInRange, declared.op.Op.Op};
ghost use Rattle.ert_script.specs.Scripts.{Does, DoesWith, Fails};

use crate::doing::do_op;
use crate::label_map::LabelMap;
use crate::replies::ticked;
use crate::sched_ops::{advance, deliver, serve, turn};
use ert_defs::{NoMemory, Reading};
use ert_ops::{Op, Reply};
use ert_world::World;

/// Does one op: as the scheduler that it names, or else as caller 0. A start binds its label once its timer was
/// started. The world gave out no seat.
///
/// If memory runs out, the world may have done a part of the op: it has started the timer of a start, and has
/// done what it could of the steps of a scheduler. No label was bound.
pub fn reply_op(world: &mut World, labels: &mut LabelMap, op: &Op) -> Result<Reply, NoMemory>
    requires range { IsOpInRange world.old.settings op.now }
    requires lone { world.old.next ≡ 1 }
    ensures ok { IfOk result (λ reply. DoesWith world.old labels.old op.now reply world.new labels.new) }
    ensures err { OnErr result (Fails world.old labels.old op.now world.new) }
    ensures labels { OnErr result (labels.new ≡ labels.old) }
{
    match *op {
        Op::Serve { sched } => serve(world, sched),
        Op::Advance { sched } => advance(world, sched),
        Op::Deliver { sched } => deliver(world, sched),
        Op::Turn { sched } => turn(world, sched),
        _ => caller_op(world, labels, op),
    }
}

/// Does an op as caller 0.
#[tactic(auto, using(crate::proofs::Alone::does_with, crate::proofs::Alone::fails_with, crate::proofs::Alone::breaks_with))]
fn caller_op(world: &mut World, labels: &mut LabelMap, op: &Op) -> Result<Reply, NoMemory>
    requires lone { world.old.next ≡ 1 }
    requires caller { IsCallersOp op.now }
    requires range { IsOpInRange world.old.settings op.now }
    ensures ok { IfOk result (λ reply. DoesWith world.old labels.old op.now reply world.new labels.new) }
    ensures err { OnErr result (Fails world.old labels.old op.now world.new) }
    ensures labels { OnErr result (labels.new ≡ labels.old) }
{
    let timer = labels.timer_for(op);
    match do_op(world, op, timer) {
        Ok(reply) => match labels.bind_started(op, &reply) {
            Ok(()) => Ok(reply),
            Err(e) => Err(e),
        },
        Err(e) => Err(e),
    }
}

/// The clock takes a reading, and checks itself where a check is due: the op `Tick`.
pub fn tick(world: &mut World, mono: i64, sys: i64) -> Reply
    requires valid { IsValid (record { mono = mono; sys = sys }) }
    requires lone { world.old.next ≡ 1 }
    ensures { Does world.old (Op.Tick mono sys) result world.new }
{
    ticked(world.tick(Reading { mono, sys }, false))
}
