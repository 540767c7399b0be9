//! Where a history stops being legal.

ghost use Rattle.std.specs.Prelude.{◌≡◌, IfOk, IfSome, Ok, None};
ghost use Rattle.ert_defs.specs.{Legal.Legal, Settings.IsChecked};
ghost use Rattle.ert_judge.specs.Verdicts.{StopsAtIllegal};

use crate::finding::reason;
use crate::judge::Judge;
use crate::reasons::Reason;
use ert_defs::{Entry, NoMemory, Settings};
use std::alloc::Global;

/// Where a history stops being legal.
#[derive(Clone, Copy)]
pub struct Stop {
    /// The place of the first entry that isn't legal after those before it, from 0.
    pub place: usize,
    /// Why it isn't.
    pub why: Reason,
}

/// The first entry that isn't legal after those before it, and why it isn't.
pub fn first_stop(
    alloc: Global,
    settings: &Settings,
    entries: &[Entry],
) -> Result<Option<Stop>, NoMemory>
    requires { IsChecked settings.now }
    ensures legal { result ≡ Ok None → Legal settings.now entries.now }
    ensures stops { IfOk result (λ found. IfSome found (StopsAtIllegal settings.now entries.now)) }
{
    let mut judge = Judge::open(alloc, settings)?;
    for i in 0..entries.len() {
        if let Some(why) = reason(&judge, &entries[i]) {
            return Ok(Some(Stop { place: i, why }));
        }
        judge.follow(&entries[i])?;
    }
    Ok(None)
}
