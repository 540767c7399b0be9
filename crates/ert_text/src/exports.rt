//! The exported calls.
ghost use Rattle.std.specs.Prelude.{◌≡◌, ◌⊎◌, ◌↔◌, ◌<◌, ◌≤◌, false, length};
ghost use Rattle.ert_audit.specs.Verdicts.{HasVerdict};
ghost use Rattle.ert_audit.specs.declared.verdict.Verdict as verdicts;
ghost use Rattle.ert_text.specs.{Answers.{text_code, text_status}, Texts.{TellsBoth, TellsRun, TellsRefusal, TellsJudged, TellsNothing}};
ghost use Rattle.ert_scenario.specs.{Scenarios.{Plan, IsScenario, HasRefusal}, declared.scenario.ScenarioErr.ScenarioErr as Why};

use crate::answer::Answer;
use crate::copying::copy_over;
use crate::judging::judge_text;
use crate::running::run_text;
use std::alloc::Global;

/// How many bytes each text of an answer has, whether it fitted its buffer or not.
#[repr(C)]
#[derive(Clone, Copy)]
pub struct ErtTold {
    /// Of what the program writes to standard output.
    pub output: usize,
    /// Of the message that it writes to standard error.
    pub errors: usize,
}

/// Runs a scenario, as `ertime run` does, and returns the status that it ends with.
#[unsafe(no_mangle)]
pub extern "C" fn ert_run(
    alloc: Global,
    scenario: &[u8],
    output: &mut [u8],
    errors: &mut [u8],
    told: &mut ErtTold,
) -> u32
    // The bytes are a scenario, and its transcript was told.
    ensures done { result ≡ 0 → TellsRun scenario.now told.new output.old output.new errors.old errors.new }
    // They are refused, and the line of that was told, with the message of a true explanation.
    ensures refused { result ≡ 3 → TellsRefusal scenario.now told.new output.old output.new errors.old errors.new }
    ensures nothing { (result ≡ 7) ⊎ (result ≡ 8) → TellsNothing told.new output.old output.new errors.old errors.new }
    ensures which { (result ≡ 0) ⊎ (result ≡ 3) ⊎ (result ≡ 7) ⊎ (result ≡ 8) }
    // Only memory keeps a text from its answer.
    ensures runs { (plan : Plan) → length scenario.now ≤ 16777216 → IsScenario false scenario.now plan → (result ≡ 0) ⊎ (result ≡ 7) }
    ensures refuses { (why : Why) → length scenario.now ≤ 16777216 → HasRefusal false scenario.now why → (result ≡ 3) ⊎ (result ≡ 7) }
    ensures too_long { (result ≡ 8) ↔ (16777216 < length scenario.now) }
{
    let answer = run_text(alloc, scenario);
    tell(&answer, output, errors, told)
}

/// Judges a history, as `ertaudit` does, and returns the status that it ends with.
#[unsafe(no_mangle)]
pub extern "C" fn ert_judge(
    alloc: Global,
    history: &[u8],
    output: &mut [u8],
    errors: &mut [u8],
    told: &mut ErtTold,
) -> u32
    // The bytes have a verdict, which the status tells: its line was told, with the message that tells why.
    ensures judged { (result ≡ 0) ⊎ (result ≡ 1) ⊎ (result ≡ 3)
        → TellsJudged history.now result told.new output.old output.new errors.old errors.new }
    ensures nothing { (result ≡ 7) ⊎ (result ≡ 8) → TellsNothing told.new output.old output.new errors.old errors.new }
    ensures which { (result ≡ 0) ⊎ (result ≡ 1) ⊎ (result ≡ 3) ⊎ (result ≡ 7) ⊎ (result ≡ 8) }
    ensures complete { (verdict : verdicts.Verdict) → length history.now ≤ 16777216 → HasVerdict history.now verdict
        → (result ≡ text_code (text_status verdict)) ⊎ (result ≡ 7) }
    ensures too_long { (result ≡ 8) ↔ (16777216 < length history.now) }
{
    let answer = judge_text(alloc, history);
    tell(&answer, output, errors, told)
}

/// Returns an answer, with its texts.
fn tell(answer: &Answer, output: &mut [u8], errors: &mut [u8], told: &mut ErtTold) -> u32
    ensures status { result ≡ text_code answer.now.status }
    ensures texts { TellsBoth answer.now.output.items answer.now.errors.items told.new output.old output.new errors.old errors.new }
{
    *told = ErtTold {
        output: copy_over(&answer.output, output),
        errors: copy_over(&answer.errors, errors),
    };
    u32::from(answer.status.code())
}
