//! What `ertaudit` does.
ghost use Rattle.std.specs.Prelude.{◌≡◌, ◌⊎◌, ◌↔◌, ◌<◌, ◌≤◌, [], length, IfOk};
ghost use Rattle.ert_audit.specs.{Findings.{IsFound, finding_verdict}, Verdicts.{HasVerdict, verdict_line}};
ghost use Rattle.ert_audit.specs.declared.verdict.Verdict as verdicts;
ghost use Rattle.ert_text.specs.Answers.{JudgesTo, TellsReason, JudgeAnswers, text_status};

use crate::answer::{Answer, TextStatus, bare, copied};
use ert_audit::{Finding, Verdict, find_in, message_on, one_verdict, write_verdict};
use ert_defs::NoMemory;
use ert_io::MAX_INPUT;
use std::alloc::Global;

/// Judges a history: whether the text spells one, and whether that is legal.
///
/// `Done`: it is legal. `Illegal`: an entry isn't; the message tells which condition of the service it breaks.
/// `Refused`: the text spells no history; the message tells at which word. In each of these the output is the one line
/// that `ertaudit` writes.
pub fn judge_text(alloc: Global, history: &[u8]) -> Answer
    ensures answer { JudgeAnswers history.now result.status result.output.items result.errors.items }
    // A text with a verdict is told it, unless memory runs out.
    ensures complete { (verdict : verdicts.Verdict) → length history.now ≤ 16777216 → HasVerdict history.now verdict
        → (result.status ≡ text_status verdict) ⊎ (result.status ≡ TextStatus.NoMemory) }
    ensures too_long { (result.status ≡ TextStatus.TooLong) ↔ (16777216 < length history.now) }
{
    one_verdict();
    if history.len() > MAX_INPUT {
        return bare(alloc, TextStatus::TooLong);
    }
    match judgement(alloc, history) {
        Ok(answer) => answer,
        Err(NoMemory) => bare(alloc, TextStatus::NoMemory),
    }
}

/// The answer on a text with its verdict.
fn judgement(alloc: Global, history: &[u8]) -> Result<Answer, NoMemory>
    ensures { IfOk result (λ a. JudgesTo history.now a.status a.output.items a.errors.items) }
{
    let finding = find_in(alloc, history)?;
    let verdict = finding.verdict();
    Ok(Answer {
        status: status_of_verdict(verdict),
        output: line_of(alloc, verdict)?,
        errors: why(alloc, finding, history)?,
    })
}

/// The status that tells a verdict.
fn status_of_verdict(verdict: Verdict) -> TextStatus
    ensures { result ≡ text_status verdict }
{
    match verdict {
        Verdict::Legal { .. } => TextStatus::Done,
        Verdict::Illegal { .. } => TextStatus::Illegal,
        Verdict::Refused { .. } => TextStatus::Refused,
    }
}

/// The line that tells a verdict.
fn line_of(alloc: Global, verdict: Verdict) -> Result<Vec<u8>, NoMemory>
    ensures { IfOk result (λ line. line.items ≡ verdict_line verdict) }
{
    let mut page = String::new(alloc);
    write_verdict(&mut page, verdict)?;
    Ok(copied(alloc, page.as_bytes())?)
}

/// Why a text has its verdict: nothing where it is legal.
fn why(alloc: Global, finding: Finding, history: &[u8]) -> Result<Vec<u8>, NoMemory>
    requires { IsFound history.now finding }
    ensures { IfOk result (λ text. TellsReason history.now (finding_verdict finding) text.items) }
{
    match finding {
        Finding::Legal { .. } => Ok(Vec::new(alloc)),
        _ => match message_on(alloc, history, finding) {
            Some(message) => Ok(copied(alloc, message.as_bytes())?),
            None => Err(NoMemory),
        },
    }
}
