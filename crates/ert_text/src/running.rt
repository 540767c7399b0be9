//! What `ertime run` does.
ghost use Rattle.std.specs.Prelude.{◌≡◌, ◌⊎◌, ◌↔◌, ◌<◌, ◌≤◌, [], false, length, IfOk, IfSome, IsSomeAnd};
ghost use Rattle.ert_text.specs.{Answers.{RunAnswers, RunsTo, IsRefusedWith}, Sinks.text_of};
ghost use Rattle.ert_explain.specs.Telling.{IsMessageOn};
ghost use Rattle.ert_program.specs.Endings.{HasItsRefusal};
ghost use Rattle.ert_scenario.specs.{Scenarios.{Plan, IsScenario, HasRefusal}, declared.scenario.ScenarioErr.ScenarioErr as Why};

use crate::answer::{Answer, TextStatus, bare, copied};
use crate::sink::TextSink;
use ert_defs::NoMemory;
use ert_explain::message_on;
use ert_io::{MAX_INPUT, SureSource};
use ert_program::{EndStatus, Ended, run};
use ert_scenario::one_verdict;
use std::alloc::Global;

/// Runs a scenario.
///
/// `Done`: the output is its transcript. `Refused`: the text is no scenario; the output is the line of the refusal, and
/// the message tells where and why. `Illegal` isn't answered.
pub fn run_text(alloc: Global, scenario: &[u8]) -> Answer
    ensures answer { RunAnswers scenario.now result.status result.output.items result.errors.items }
    // A scenario is run, and what has a refusal is refused, unless memory runs out.
    ensures runs { (plan : Plan) → length scenario.now ≤ 16777216 → IsScenario false scenario.now plan
        → (result.status ≡ TextStatus.Done) ⊎ (result.status ≡ TextStatus.NoMemory) }
    ensures refuses { (why : Why) → length scenario.now ≤ 16777216 → HasRefusal false scenario.now why
        → (result.status ≡ TextStatus.Refused) ⊎ (result.status ≡ TextStatus.NoMemory) }
    ensures too_long { (result.status ≡ TextStatus.TooLong) ↔ (16777216 < length scenario.now) }
{
    one_verdict();
    if scenario.len() > MAX_INPUT {
        return bare(alloc, TextStatus::TooLong);
    }
    match ran(alloc, scenario) {
        Ok(answer) => answer,
        Err(NoMemory) => bare(alloc, TextStatus::NoMemory),
    }
}

/// The answer to a text that isn't too long.
fn ran(alloc: Global, scenario: &[u8]) -> Result<Answer, NoMemory>
    requires { length scenario.now ≤ 16777216 }
    ensures which { IfOk result (λ a. (a.status ≡ TextStatus.Done) ⊎ (a.status ≡ TextStatus.Refused)) }
    ensures answer { IfOk result (λ a. RunAnswers scenario.now a.status a.output.items a.errors.items) }
{
    let mut sink = TextSink::new(alloc);
    let ended = run_on(alloc, copied(alloc, scenario)?, &mut sink);
    match ended.status {
        EndStatus::Done => Ok(Answer {
            status: TextStatus::Done,
            output: sink.into_text(),
            errors: Vec::new(alloc),
        }),
        EndStatus::Refused => Ok(Answer {
            status: TextStatus::Refused,
            output: sink.into_text(),
            errors: message(alloc, &ended)?,
        }),
        // Of a text that is short enough all is read, and a sink into memory fails only without memory.
        _ => Err(NoMemory),
    }
}

/// Runs a scenario from memory into an empty sink.
fn run_on(alloc: Global, bytes: Vec<u8>, sink: &mut TextSink) -> Ended
    requires { text_of sink.old ≡ [] }
    ensures done { result.status ≡ EndStatus.Done → RunsTo bytes.items (text_of sink.new) }
    ensures refused { result.status ≡ EndStatus.Refused → IsSomeAnd result.refusal (IsRefusedWith bytes.items (text_of sink.new)) }
    ensures refusal { HasItsRefusal result }
{
    run(alloc, &mut SureSource::new(bytes), sink)
}

/// The message on the refusal of a text.
fn message(alloc: Global, ended: &Ended) -> Result<Vec<u8>, NoMemory>
    requires { HasItsRefusal ended.now }
    ensures { IfOk result (λ text. IfSome ended.now.refusal (λ r. IsMessageOn r.race r.bytes.items r.why text.items)) }
{
    let Some(refusal) = &ended.refusal else {
        return Err(NoMemory);
    };
    let message = message_on(alloc, refusal.bytes.as_slice(), refusal.race, &refusal.why)?;
    Ok(copied(alloc, message.as_bytes())?)
}
