ghost use Rattle.std.specs.Prelude.{◌≡◌, ◌++◌, ℕ, List, IfOk, OnOk, string_bytes};
ghost use Rattle.ert_audit.specs.{Findings.IsFound, Verdicts.{HasVerdict, verdict_line}};
ghost use Rattle.ert_audit.specs.declared.verdict.Verdict as verdicts;

use crate::spelling::{SpellingErr, one_spelling, read_history};
use ert_defs::NoMemory;
use ert_judge::{Reason, first_stop};
use std::alloc::{AllocError, Global};
use std::fmt::Write;

/// What is said of a text.
#[derive(Clone, Copy)]
pub enum Verdict {
    /// It spells a legal history of so many entries.
    Legal { entries: usize },
    /// It spells a history; the entry at this line is the first that isn't legal after those before it.
    Illegal { line: usize },
    /// It spells no history; this line is the first that is spelled otherwise.
    Refused { line: usize },
}

/// What was found of a text.
#[derive(Clone, Copy)]
pub enum Finding {
    /// It spells a legal history of so many entries.
    Legal { entries: usize },
    /// It spells a history; the entry at this line is the first that isn't legal after those before it, and this is why.
    Illegal { line: usize, why: Reason },
    /// It spells no history; this line is the first that is spelled otherwise.
    Refused { line: usize },
}

impl Finding {
    ghost use Rattle.std.specs.Prelude.{◌≡◌, ℕ, List};
    ghost use Rattle.ert_audit.specs.{Findings.{IsFound, finding_verdict}, Verdicts.HasVerdict};

    /// The verdict on the text.
    pub fn verdict(self) -> Verdict
        ensures is { result ≡ finding_verdict self }
        ensures holds { (text : List ℕ) → IsFound text self → HasVerdict text result }
    {
        match self {
            Finding::Legal { entries } => Verdict::Legal { entries },
            Finding::Illegal { line, .. } => Verdict::Illegal { line },
            Finding::Refused { line } => Verdict::Refused { line },
        }
    }
}

/// Judges a text.
pub fn find_in(alloc: Global, text: &[u8]) -> Result<Finding, NoMemory>
    ensures { IfOk result (IsFound text.now) }
{
    let history = match read_history(alloc, text) {
        Ok(history) => history,
        Err(SpellingErr::Misspelled { line }) => return Ok(Finding::Refused { line }),
        Err(SpellingErr::NoMemory) => return Err(NoMemory),
    };
    match first_stop(alloc, &history.settings, &history.entries)? {
        None => Ok(Finding::Legal {
            entries: history.entries.len(),
        }),
        // The settings have the first line.
        Some(stop) => Ok(Finding::Illegal {
            line: stop.place + 2,
            why: stop.why,
        }),
    }
}

/// Appends the line that tells a verdict.
pub fn write_verdict(page: &mut String, verdict: Verdict) -> Result<(), AllocError>
    ensures { OnOk result (string_bytes page.new ≡ string_bytes page.old ++ verdict_line verdict) }
{
    match verdict {
        Verdict::Legal { entries } => write!(page, "legal {entries}\n"),
        Verdict::Illegal { line } => write!(page, "illegal {line}\n"),
        Verdict::Refused { line } => write!(page, "refused {line}\n"),
    }
}

/// No text has two verdicts.
pub fn one_verdict()
    ensures { (text : List ℕ) (first second : verdicts.Verdict) → HasVerdict text first → HasVerdict text second → first ≡ second }
{
    one_spelling();
}
