ghost use Rattle.std.specs.Prelude.{◌≡◌, ◌↔◌, ℕ, [], IsTrue, IfOk, IfSome, IfNone, Err};
ghost use Rattle.ert_defs.specs.Settings.{IsChecked};
ghost use Rattle.ert_audit.specs.Spelling.{Spells, IsSettingsLine, BeginsWithSettings, IsEntryLine, BeginsWithEntry, AreEntryLines, MisspelledIn, MisspelledAt};

use crate::spelling::cutting::cut;
use crate::spelling::entries::entry_of;
use crate::spelling::settings::settings_of;
use ert_defs::{Entry, Settings};
use std::alloc::Global;
use thiserror::Error;

/// A history of the service, legal or not.
#[derive(Drop)]
pub struct History {
    /// Settings that a service can be opened with.
    pub settings: Settings,
    /// In their order.
    pub entries: Vec<Entry>,
}

/// Why no history was read.
#[derive(Clone, Copy, Debug, PartialEq, Eq, Error)]
pub enum SpellingErr {
    /// The bytes spell no history that a service can have. This line, counted from 1, is the first that is
    /// spelled otherwise; settings that no service can be opened with are misspelled at line 1, and so are
    /// no bytes at all.
    #[error("misspelled at line {line}")]
    Misspelled { line: usize },
    /// Memory ran out. This may come in place of any answer.
    #[error("out of memory")]
    NoMemory,
}

/// Reads the history that the bytes spell.
pub fn read_history(alloc: Global, bytes: &[u8]) -> Result<History, SpellingErr>
    ensures ok { IfOk result (λ h. Spells h.settings h.entries.items bytes.now
        × IsChecked h.settings) }

    // Out of memory may come in place of any answer.
    ensures err { (line : ℕ) → result ≡ Err (SpellingErr.Misspelled line)
        → MisspelledAt bytes.now line }
{
    let Some((settings, lines)) = settings_line(bytes) else {
        return Err(SpellingErr::Misspelled { line: 1 });
    };
    let entries = read_entries(alloc, lines)?;
    Ok(History { settings, entries })
}

/// The settings of the first line, and the bytes after it.
fn settings_line(bytes: &[u8]) -> Option<(Settings, &[u8])>
    ensures some { IfSome result (λ x. IsSettingsLine bytes.now x.0 x.1.now) }
    ensures none { IfNone result (BeginsWithSettings bytes.now → ⊥) }
{
    let (line, rest) = cut(bytes, b'\n')?;
    let settings = settings_of(line)?;
    if !is_checked(&settings) {
        return None;
    }
    Some((settings, rest))
}

/// Whether a service can be opened with the settings.
#[tactic(auto, using(crate::proofs::FirstLines::unchecked))]
fn is_checked(settings: &Settings) -> bool
    ensures { IsTrue result ↔ IsChecked settings.now }
{
    settings.check().is_ok()
}

/// The entry of the first line, and the bytes after it.
fn entry_line(lines: &[u8]) -> Option<(Entry, &[u8])>
    ensures some { IfSome result (λ x. IsEntryLine lines.now x.0 x.1.now) }
    ensures none { IfNone result (BeginsWithEntry lines.now → ⊥) }
{
    let (line, rest) = cut(lines, b'\n')?;
    let entry = entry_of(line)?;
    Some((entry, rest))
}

/// The entries of lines, of which the first is line 2.
fn read_entries(alloc: Global, lines: &[u8]) -> Result<Vec<Entry>, SpellingErr>
    ensures ok { IfOk result (λ v. AreEntryLines lines.now v.items []) }
    ensures err { (line : ℕ) → result ≡ Err (SpellingErr.Misspelled line)
        → MisspelledIn lines.now line }
{
    let mut entries = Vec::new(alloc);
    let mut rest = lines;
    while !rest.is_empty() {
        let Some((entry, after)) = entry_line(rest) else {
            let line = entries.len() + 2;
            return Err(SpellingErr::Misspelled { line });
        };
        if entries.push(entry).is_err() {
            return Err(SpellingErr::NoMemory);
        }
        rest = after;
    }
    Ok(entries)
}
