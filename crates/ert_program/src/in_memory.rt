//! The command `run` over streams in memory that never fail.
ghost use Rattle.std.specs.Prelude.{◌≡◌, ◌≤◌, ◌⊎◌, ◌++◌, ℕ, false, List, Some, length};
ghost use Rattle.ert_io.specs.Memory.{sure_left, sure_taken, sure_room};
ghost use Rattle.ert_scenario.specs.Scenarios.{Plan, IsScenario};
ghost use Rattle.ert_ops.specs.Scripts.{IsTranscript};
ghost use Rattle.ert_program.specs.Runs.{InputFits};

use crate::ending::{EndStatus, Ended};
use crate::running::run;
use ert_io::{SureSink, SureSource};
use ert_scenario::{one_verdict, scenarios_are_accepted};
use std::alloc::Global;

/// As `run`, from memory and into memory that was reserved: where the input is a scenario, its transcript is
/// written, and nothing but running out of memory keeps it from that.
pub fn run_in_memory(alloc: Global, input: &mut SureSource, output: &mut SureSink) -> Ended
    requires { InputFits (Some (sure_left input.old)) (Some (sure_room output.old)) }
    ensures { (plan : Plan) → length (sure_left input.old) ≤ 16777216 → IsScenario false (sure_left input.old) plan
        → ((result.status ≡ EndStatus.Done)
        × ((text : List ℕ) × IsTranscript plan.settings plan.ops text × (sure_taken output.new ≡ sure_taken output.old ++ text)))
        ⊎ (result.status ≡ EndStatus.NoMemory) }
{
    one_verdict();
    scenarios_are_accepted();
    run(alloc, input, output)
}
