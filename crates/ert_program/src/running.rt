//! The command `run`.
ghost use Rattle.std.specs.Prelude.{◌≡◌, ◌≢◌, ◌≤◌, false, None, length, IfOk, OnOk, OnErr, IsErrOf, IsSomeAnd};
ghost use Rattle.ert_defs.specs.Settings.{IsChecked};
ghost use Rattle.ert_io.specs.{Faults.Rose, Known.HasRoomFor, Reads.input_of, Told.{took, TakesFront}};
ghost use Rattle.ert_ops.specs.{Labels.AreOps, Ranges.AreOpsInRange, Plain.plain_text, Texts.end_line};
ghost use Rattle.ert_scenario.specs.Scenarios.{plan_of};
ghost use Rattle.ert_program.specs.{Endings.HasItsRefusal, OnDesks.RanOn, RefusedInputs.{RefusalEnds, RefusalFits}, Runs.{RunOf, RunOn, RunEnds, RunFits}, Streams.{told_by_sink, output_of}};

use crate::ending::{EndStatus, Ended};
use crate::reading::read_input;
use ert_io::{Sink, Source};
use ert_scenario::{Scenario, one_verdict, scenarios_are_accepted, scenarios_are_valid};
use ert_script::{LabelMap, RunErr, run_ops, write_end, write_page};
use ert_table::{Desk, Pass};
use ert_world::World;
use std::alloc::Global;
use std::sync::Arc;

/// Reads a scenario to the end of the input, runs it on a new world, and writes its transcript: what the plain service
/// prints of its ops. At Done it returns the world's desk. Input that is no scenario is refused by a line.
///
/// An output that tells its room has room for the transcript, or for the line of the refusal.
pub fn run<I: Source, O: Sink>(alloc: Global, input: &mut I, output: &mut O) -> Ended
    requires fits { RunFits (I.left input.old) (O.room output.old) }
    requires refusal_fits { RefusalFits false (I.left input.old) (O.room output.old) }
    ensures ends { RunEnds (input_of I.given I.ended I.left I.faults input.old) (input_of I.given I.ended I.left I.faults input.new)
        (output_of O.taken O.room O.faults output.old) (output_of O.taken O.room O.faults output.new) result.status }
    ensures refusals { RefusalEnds false (input_of I.given I.ended I.left I.faults input.old) (input_of I.given I.ended I.left I.faults input.new)
        (output_of O.taken O.room O.faults output.old) (output_of O.taken O.room O.faults output.new) result }
    ensures desk { result.status ≡ EndStatus.Done
        → IsSomeAnd result.desk (RunOn (input_of I.given I.ended I.left I.faults input.old) (input_of I.given I.ended I.left I.faults input.new)
        (told_by_sink O.taken O.room output.old) (told_by_sink O.taken O.room output.new)) }
    ensures no_desk { result.status ≢ EndStatus.Done → result.desk ≡ None }
    ensures refusal { HasItsRefusal result }
    ensures no_refusal { result.status ≢ EndStatus.Refused → result.refusal ≡ None }
    ensures later { I.faults input.old ≤ I.faults input.new }
    ensures later_out { O.faults output.old ≤ O.faults output.new }
{
    one_verdict();
    scenarios_are_valid();
    scenarios_are_accepted();
    match read_input(alloc, false, input, output) {
        Ok(scenario) => Ended::of_run(run_scenario(alloc, &scenario, output)),
        Err(ended) => ended,
    }
}

/// Runs the ops of a scenario on a new world, writes its transcript, and gives the world's desk. Where the
/// output fails, or memory, the first part of the transcript was written.
fn run_scenario<O: Sink>(
    alloc: Global,
    scenario: &Scenario,
    output: &mut O,
) -> Result<(Arc<Desk>, Pass), RunErr>
    requires fits { HasRoomFor (O.room output.old) (length (plain_text scenario.now.settings scenario.now.ops.items)) }
    requires checked { IsChecked scenario.now.settings }
    requires ranges { AreOpsInRange scenario.now.settings scenario.now.ops.items }
    requires labels { AreOps scenario.now.ops.items }
    requires looks { length scenario.now.ops.items ≤ scenario.now.settings.looks }
    ensures ok { IfOk result (λ r. RanOn RunOf (plan_of scenario.now) (told_by_sink O.taken O.room output.old) (told_by_sink O.taken O.room output.new) r) }
    ensures err { OnErr result (TakesFront (told_by_sink O.taken O.room output.old) (told_by_sink O.taken O.room output.new)
        (plain_text scenario.now.settings scenario.now.ops.items)) }
    ensures later { O.faults output.old ≤ O.faults output.new }
    ensures cause { IsErrOf result RunErr.WriteFault → Rose (O.faults output.old) (O.faults output.new) }
{
    let Ok(mut world) = World::open(alloc, &scenario.settings) else {
        return Err(RunErr::NoMemory);
    };
    let mut labels = LabelMap::new(alloc);
    run_ops(alloc, &mut world, &mut labels, &scenario.ops, output)?;
    finish(alloc, world.published(), output)?;
    Ok(world.into_desk())
}

/// Writes the last line of a transcript.
fn finish<O: Sink>(alloc: Global, now: i64, output: &mut O) -> Result<(), RunErr>
    requires { HasRoomFor (O.room output.old) (length (end_line now)) }
    ensures ok { OnOk result (told_by_sink O.taken O.room output.new ≡ took (told_by_sink O.taken O.room output.old) (end_line now)) }
    ensures err { OnErr result (TakesFront (told_by_sink O.taken O.room output.old) (told_by_sink O.taken O.room output.new) (end_line now)) }
    ensures later { O.faults output.old ≤ O.faults output.new }
    ensures cause { IsErrOf result RunErr.WriteFault → Rose (O.faults output.old) (O.faults output.new) }
{
    let mut page = String::new(alloc);
    if write_end(&mut page, now).is_err() {
        return Err(RunErr::NoMemory);
    }
    write_page(output, &mut page)
}
