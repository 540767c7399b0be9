ghost use Rattle.std.specs.Prelude.{◌≡◌, ◌≤◌, OnOk, OnErr, IfErr, IsErrOf};
ghost use Rattle.ert_io.specs.{Faults.Rose, Told.sink_told};
ghost use Rattle.ert_ops.specs.Ranges.{AreOpsInRange};
ghost use Rattle.ert_world.specs.Worlds.{StandsFor};
ghost use Rattle.ert_script.specs.Written.{RunsAll, RunsSome, WritesRun, WritesSome, LinesFit};

use crate::label_map::LabelMap;
use crate::output::{RunErr, put, write_page};
use crate::reply::reply_op;
use ert_defs::NoMemory;
use ert_io::Sink;
use ert_ops::Op;
use ert_world::World;
use std::alloc::Global;

/// Does the ops one after the other on a world, and writes one line for each. A sink that tells its room has
/// room for all lines. `labels` has the labels that were bound, so a list goes on where another has ended.
///
/// Where the output fails, or memory, the lines of some first ops may be there, in part. Where memory fails,
/// a part of the next op may have been done.
pub fn run_ops<K: Sink>(
    alloc: Global,
    world: &mut World,
    labels: &mut LabelMap,
    ops: &[Op],
    sink: &mut K,
) -> Result<(), RunErr>
    requires fits { LinesFit world.old labels.old ops.now (K.room sink.old) }
    requires ranges { AreOpsInRange world.old.settings ops.now }
    requires lone { world.old.next ≡ 1 }
    ensures ok { OnOk result (WritesRun world.old labels.old ops.now world.new labels.new
        (sink_told (K.taken sink.old) (K.room sink.old)) (sink_told (K.taken sink.new) (K.room sink.new))) }
    ensures err { IfErr result (λ why. WritesSome world.old labels.old ops.now world.new labels.new why
        (sink_told (K.taken sink.old) (K.room sink.old)) (sink_told (K.taken sink.new) (K.room sink.new))) }
    ensures later { K.faults sink.old ≤ K.faults sink.new }
    ensures cause { IsErrOf result RunErr.WriteFault → Rose (K.faults sink.old) (K.faults sink.new) }
{
    // For the prover alone, here and after each op: what is written is told of a world that stands for its history.
    history_stands(world);
    let mut page = String::new(alloc);
    for op in ops {
        let Ok(reply) = reply_op(world, labels, op) else {
            return Err(RunErr::NoMemory);
        };
        history_stands(world);
        put(sink, &mut page, &reply, labels)?;
    }
    write_page(sink, &mut page)
}

/// Does the ops one after the other on a world, and writes nothing. `labels` has the labels that were bound, so a
/// list goes on where another has ended.
///
/// Where memory fails, some first ops were done, and maybe a part of the next.
pub fn do_ops(world: &mut World, labels: &mut LabelMap, ops: &[Op]) -> Result<(), NoMemory>
    requires ranges { AreOpsInRange world.old.settings ops.now }
    requires lone { world.old.next ≡ 1 }
    ensures ok { OnOk result (RunsAll world.old labels.old ops.now world.new labels.new) }
    ensures err { OnErr result (RunsSome world.old labels.old ops.now world.new labels.new) }
{
    // For the prover alone, here and after each op: the world stands for its history.
    history_stands(world);
    for op in ops {
        reply_op(world, labels, op)?;
        history_stands(world);
    }
    Ok(())
}

/// The history of every world is legal, and its clock stands for it. The call brings this into reach, and
/// costs nothing.
pub fn history_stands(world: &World)
    ensures { StandsFor world.now.settings world.now.history world.now }
{
    let _ = world.settings();
}
