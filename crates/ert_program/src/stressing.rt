//! The command `stress`.
ghost use Rattle.std.specs.Prelude.{◌≡◌, ◌≤◌, ◌++◌, None, IfOk, OnOk, IsErrOf, string_bytes};
ghost use Rattle.ert_defs.specs.States.{state};
ghost use Rattle.ert_program.specs.{Generated.generated, OnDesks.RanOn, Streams.told_by_sink, Stresses.{SummaryOf, StopsSummary, summary_of, HasRun}};
ghost use Rattle.ert_io.specs.Faults.{Rose};
ghost use Rattle.ert_laws.specs.Counts.{counts_of};

use crate::generation::generate;
use crate::laws::generated_scenarios_are_valid;
use ert_defs::NoMemory;
use ert_io::Sink;
use ert_script::{LabelMap, RunErr, do_ops, write_end, write_page, write_settled};
use ert_table::{Desk, Pass};
use ert_world::World;
use std::alloc::{AllocError, Global};
use std::sync::Arc;

/// Runs the scenario of a seed with `n` ops, writes how many of its timers have which status in the end,
/// and gives the desk that it was run on. The sink tells no room.
pub fn stress<O: Sink>(
    alloc: Global,
    seed: u64,
    n: u64,
    output: &mut O,
) -> Result<(Arc<Desk>, Pass), RunErr>
    requires room { O.room output.old ≡ None }
    requires count { n ≤ 100000 }
    ensures ok { IfOk result (λ r. RanOn SummaryOf (generated seed n) (told_by_sink O.taken O.room output.old) (told_by_sink O.taken O.room output.new) r) }
    ensures write_fault { IsErrOf result RunErr.WriteFault
        → StopsSummary (generated seed n) (told_by_sink O.taken O.room output.old) (told_by_sink O.taken O.room output.new) }
    ensures no_memory { IsErrOf result RunErr.NoMemory → output.new ≡ output.old }
    ensures later { O.faults output.old ≤ O.faults output.new }
    ensures cause { IsErrOf result RunErr.WriteFault → Rose (O.faults output.old) (O.faults output.new) }
{
    generated_scenarios_are_valid();
    let Ok(world) = run_generated(alloc, seed, n) else {
        return Err(RunErr::NoMemory);
    };
    let mut page = String::new(alloc);
    if write_summary(&mut page, &world).is_err() {
        return Err(RunErr::NoMemory);
    }
    match write_page(output, &mut page) {
        Ok(()) => Ok(world.into_desk()),
        Err(_) => Err(RunErr::WriteFault),
    }
}

/// A world that the ops of the scenario were done on.
fn run_generated(alloc: Global, seed: u64, n: u64) -> Result<World, NoMemory>
    requires { n ≤ 100000 }
    ensures { IfOk result (HasRun (generated seed n)) }
{
    generated_scenarios_are_valid();
    let scenario = generate(alloc, seed, n)?;
    let mut world = World::open(alloc, &scenario.settings)?;
    do_ops(&mut world, &mut LabelMap::new(alloc), &scenario.ops)?;
    Ok(world)
}

/// Appends how many timers have which status, and the end line.
fn write_summary(page: &mut String, world: &World) -> Result<(), AllocError>
    requires { world.now.next ≡ 1 }
    ensures { OnOk result (string_bytes page.new ≡ string_bytes page.old
        ++ summary_of (counts_of world.now.settings (state world.now.settings world.now.history)) world.now.clock.face.time) }
{
    let counts = world.counts();
    write_settled(page, &counts)?;
    write_end(page, world.published())
}
