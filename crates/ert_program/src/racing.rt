//! The command `race`.
ghost use Rattle.std.specs.Prelude.{◌≡◌, ◌≢◌, ◌≤◌, ℕ, List, None, true, is_some, option_map, IfSome, IfOk, OnErr, IsErrOf, IsSomeAnd};
ghost use Rattle.ert_defs.specs.Settings.{IsChecked};
ghost use Rattle.ert_io.specs.{Faults.Rose, Reads.input_of, Told.TakesFront};
ghost use Rattle.ert_ops.specs.{Races.{IsRace, race_of}, Ranges.AreOpsInRange};
ghost use Rattle.ert_program.specs.{Written.MayWrite, Endings.HasItsRefusal, OnDesks.RanOn, Races.{OfPlan, RaceOf, RaceOn, RaceEnds}, RefusedInputs.RefusalEnds, Streams.{told_by_sink, output_of}};
ghost use Rattle.ert_scenario.specs.Scenarios.{plan_of};

use crate::ending::{EndStatus, Ended};
use crate::races::{Gate, run_race};
use crate::reading::read_input;
use ert_io::{Sink, Source};
use ert_scenario::{Scenario, one_verdict, races_are_accepted, scenarios_are_valid};
use ert_script::RunErr;
use ert_table::{Desk, Pass};
use std::alloc::Global;
use std::sync::{Arc, Wait};
use std::thread::Threads;

/// Reads a scenario with a race to the end of the input, lets threads run it on a new world, and writes its
/// report. At Done it returns the world's desk. Input that is no such scenario is refused by a line. The sink tells no
/// room.
pub fn race<R: Threads + Wait + Sync, G: Gate + Sync, I: Source, O: Sink>(
    rt: &R,
    alloc: Global,
    input: &mut I,
    output: &mut O,
    gate: &G,
) -> Ended
    requires room { O.room output.old ≡ None }
    ensures ends { RaceEnds (input_of I.given I.ended I.left I.faults input.old) (input_of I.given I.ended I.left I.faults input.new)
        (output_of O.taken O.room O.faults output.old) (output_of O.taken O.room O.faults output.new) result.status }
    ensures refusals { RefusalEnds true (input_of I.given I.ended I.left I.faults input.old) (input_of I.given I.ended I.left I.faults input.new)
        (output_of O.taken O.room O.faults output.old) (output_of O.taken O.room O.faults output.new) result }
    ensures desk { result.status ≡ EndStatus.Done
        → IsSomeAnd result.desk (RaceOn (input_of I.given I.ended I.left I.faults input.old) (input_of I.given I.ended I.left I.faults input.new)
        (told_by_sink O.taken O.room output.old) (told_by_sink O.taken O.room output.new)) }
    ensures no_desk { result.status ≢ EndStatus.Done → result.desk ≡ None }
    ensures refusal { HasItsRefusal result }
    ensures no_refusal { result.status ≢ EndStatus.Refused → result.refusal ≡ None }
    ensures later { I.faults input.old ≤ I.faults input.new }
    ensures later_out { O.faults output.old ≤ O.faults output.new }
{
    one_verdict();
    scenarios_are_valid();
    races_are_accepted();
    match read_input(alloc, true, input, output) {
        Ok(scenario) => Ended::of_run(race_scenario(rt, alloc, &scenario, output, gate)),
        Err(ended) => ended,
    }
}

/// Runs the race of a scenario, writes its report, and gives the desk. Where the output fails, or memory, the
/// first part of a report was written, or of the lines of the ops.
fn race_scenario<R: Threads + Wait + Sync, G: Gate + Sync, O: Sink>(
    rt: &R,
    alloc: Global,
    scenario: &Scenario,
    output: &mut O,
    gate: &G,
) -> Result<(Arc<Desk>, Pass), RunErr>
    requires room { O.room output.old ≡ None }
    requires checked { IsChecked scenario.now.settings }
    requires ranges { AreOpsInRange scenario.now.settings scenario.now.ops.items }
    requires wanted { is_some scenario.now.race ≡ true }
    requires race { IfSome (option_map race_of scenario.now.race) (λ r. IsRace scenario.now.settings scenario.now.ops.items r) }
    ensures ok { IfOk result (λ r. RanOn RaceOf (plan_of scenario.now) (told_by_sink O.taken O.room output.old) (told_by_sink O.taken O.room output.new) r) }
    ensures err { OnErr result ((text : List ℕ) × OfPlan MayWrite (plan_of scenario.now) text
        × TakesFront (told_by_sink O.taken O.room output.old) (told_by_sink O.taken O.room output.new) text) }
    ensures later { O.faults output.old ≤ O.faults output.new }
    ensures cause { IsErrOf result RunErr.WriteFault → Rose (O.faults output.old) (O.faults output.new) }
{
    let Some(race) = &scenario.race else {
        unreachable!()
    };
    run_race(
        rt,
        alloc,
        &scenario.settings,
        &scenario.ops,
        race,
        gate,
        output,
    )
}
