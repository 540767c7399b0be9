//! The first part of `run` and of `race`: a scenario is read, or the input is refused.
ghost use Rattle.std.specs.Prelude.{◌≡◌, ◌≤◌, IfOk, IfErr, OnOk};
ghost use Rattle.ert_io.specs.Reads.{input_of};
ghost use Rattle.ert_scenario.specs.Scenarios.{plan_of};
ghost use Rattle.ert_program.specs.{Endings.HasItsRefusal, OnDesks.HasRead, RefusedInputs.RefusalFits, Streams.output_of, Unread.EndsUnread};

use crate::ending::{EndStatus, Ended, Refusal};
use crate::refusal::refuse;
use ert_io::{MAX_INPUT, ReadErr, Sink, Source, read_all};
use ert_scenario::{Scenario, ScenarioErr, one_verdict, read_scenario};
use std::alloc::Global;

/// Reads a scenario to the end of the input, with a race where one is wanted. Input that is no such scenario is refused
/// by a line.
pub(crate) fn read_input<I: Source, O: Sink>(
    alloc: Global,
    race: bool,
    input: &mut I,
    output: &mut O,
) -> Result<Scenario, Ended>
    requires fits { RefusalFits race (I.left input.old) (O.room output.old) }
    ensures ok { IfOk result (λ s. HasRead race (input_of I.given I.ended I.left I.faults input.old) (input_of I.given I.ended I.left I.faults input.new) (plan_of s)) }
    ensures unwritten { OnOk result (output.new ≡ output.old) }
    ensures err { IfErr result (λ e. EndsUnread race (input_of I.given I.ended I.left I.faults input.old) (input_of I.given I.ended I.left I.faults input.new)
        (output_of O.taken O.room O.faults output.old) (output_of O.taken O.room O.faults output.new) e) }
    ensures refusal { IfErr result (λ e. HasItsRefusal e) }
    ensures later { I.faults input.old ≤ I.faults input.new }
    ensures later_out { O.faults output.old ≤ O.faults output.new }
{
    one_verdict();
    match read_all(alloc, input, MAX_INPUT) {
        Ok(bytes) => match read_scenario(alloc, &bytes, race) {
            Ok(scenario) => Ok(scenario),
            Err(ScenarioErr::NoMemory) => Err(Ended::without_desk(EndStatus::NoMemory)),
            Err(why) => Err(refuse(alloc, Refusal { race, bytes, why }, output)),
        },
        Err(ReadErr::ReadFault) => Err(Ended::without_desk(EndStatus::ReadFault)),
        Err(ReadErr::TooLong) => Err(Ended::without_desk(EndStatus::TooLong)),
        Err(ReadErr::NoMemory) => Err(Ended::without_desk(EndStatus::NoMemory)),
    }
}
