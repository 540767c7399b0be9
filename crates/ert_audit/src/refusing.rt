//! Why a line is misspelled, for a person.

ghost use Rattle.std.specs.Prelude.{◌≡◌, ◌++◌, ◌-◌, ◌≤◌, ◌+◌, codes, drop, length, IfSome, OnOk, string_bytes};
ghost use Rattle.ert_audit.specs.{Messages.{line_after, line_front, shortened}, Refusals.{IsRefusal, LiesIn, wanted_text, unfit_text, word_front, refusal_message}, Faults.word_in};
ghost use Rattle.ert_judge.specs.Texts.{◌⋅◌};

use crate::lines::{has_end, line_after, write_shown};
use crate::spelling::{Wanted, WordFault, fault_in, first_word, unfit};
use ert_defs::SettingsFault;
use std::alloc::AllocError;
use std::fmt::Write;

/// Why a line is misspelled.
#[derive(Clone, Copy)]
pub enum LineRefusal {
    /// A word isn't one that could stand there.
    At(WordFault),
    /// No service can be opened with the settings.
    Unfit(SettingsFault),
    /// No newline ends the line.
    NoNewline,
    /// It is misspelled.
    Misspelled,
}

/// Why a line, by its number from 1, is misspelled.
pub fn refusal_of(text: &[u8], number: usize) -> LineRefusal
    ensures why { IsRefusal text.now number result }
    ensures lies { LiesIn (line_after text.now (number - 1)) result }
{
    let lines = number.saturating_sub(1);
    let line = line_after(text, lines);
    if let Some(fault) = fault_in(line, number == 1) {
        return LineRefusal::At(fault);
    }
    if !has_end(text, lines) {
        return LineRefusal::NoNewline;
    }
    match unfit(line) {
        Some(fault) => LineRefusal::Unfit(fault),
        None => LineRefusal::Misspelled,
    }
}

/// Appends the message on a misspelled line.
pub fn write_refusal(
    page: &mut String,
    bytes: &[u8],
    line: usize,
    refusal: LineRefusal,
) -> Result<(), AllocError>
    requires { LiesIn bytes.now refusal }
    ensures { OnOk result (string_bytes page.new ≡ string_bytes page.old ++ refusal_message bytes.now line refusal) }
{
    match refusal {
        LineRefusal::At(fault) => write_fault(page, bytes, line, fault),
        LineRefusal::Unfit(fault) => write_text(page, line, unfit_text(fault)),
        LineRefusal::NoNewline => write_text(page, line, "the line has no newline at its end"),
        LineRefusal::Misspelled => write_text(page, line, "the line is misspelled"),
    }
}

/// Appends the message on a line.
fn write_text(page: &mut String, line: usize, text: &str) -> Result<(), AllocError>
    ensures { OnOk result (string_bytes page.new ≡ string_bytes page.old ++ (line_front line ⋅ text.now ⋅ codes "\n")) }
{
    write!(page, "history:{line}: {text}\n")
}

/// Appends the message on a word that could not stand there.
fn write_fault(
    page: &mut String,
    bytes: &[u8],
    line: usize,
    fault: WordFault,
) -> Result<(), AllocError>
    requires { fault.before ≤ length bytes.now }
    ensures { OnOk result (string_bytes page.new ≡ string_bytes page.old ++ refusal_message bytes.now line (LineRefusal.At fault)) }
{
    write_place(page, line, fault.before)?;
    write_word(page, first_word(bytes, fault.before), fault.wanted)
}

fn write_place(page: &mut String, line: usize, before: usize) -> Result<(), AllocError>
    ensures { OnOk result (string_bytes page.new ≡ string_bytes page.old ++ word_front line before) }
{
    write!(page, "history:{line}:{}: \"", before as u128 + 1)
}

fn write_word(page: &mut String, word: &[u8], wanted: Wanted) -> Result<(), AllocError>
    ensures { OnOk result (string_bytes page.new ≡ string_bytes page.old ++ (shortened word.now ⋅ codes "\": expected " ⋅ wanted_text wanted ⋅ codes "\n")) }
{
    write_shown(page, word)?;
    write!(page, "\": expected {}\n", wanted_text(wanted))
}

#[tactic(auto, unfolding(crate::specs::Refusals::wanted_text))]
fn wanted_text(wanted: Wanted) -> &'static str
    ensures { result.now ≡ wanted_text wanted }
{
    match wanted {
        Wanted::SettingsWord => "the word settings",
        Wanted::Mode => "no, single or multi",
        Wanted::Truth => "true or false",
        Wanted::Integer => "a number from -9223372036854775808 to 9223372036854775807",
        Wanted::Small => "a number from 0 to 4294967295",
        Wanted::Natural => "a number from 0 to 18446744073709551615",
        Wanted::Act => "plain, force or finalize",
        Wanted::State => "preliminary, final or volatile",
        Wanted::Found => "none, armed, expired, delivered, cancelled, orphaned or dropped",
        Wanted::Kind => "wrapped or bare",
        Wanted::When => "after or at",
        Wanted::Actor => "an actor: k, or one of w, i, s, m and c with a number",
        Wanted::Partner => "-, or an actor: k, or one of w, i, s, m and c with a number",
        Wanted::Event => {
            "an event: tick, shift, look, off, arm, probe, peek, cancel, expire, orphan, deliver, drop, mark, advanced, ask, pick, answer, take, unwatch, watch or tell"
        }
        Wanted::RequestKind => "cancel or read",
        Wanted::Picked => "none, cancel or read",
        Wanted::Taken => "none, timeout, bare, cancel_done, read_done or change",
        Wanted::Left => "none, or a number from 0 to 18446744073709551615",
        Wanted::End => "the end of the line",
    }
}

#[tactic(auto, unfolding(crate::specs::Refusals::unfit_text))]
fn unfit_text(fault: SettingsFault) -> &'static str
    ensures { result.now ≡ unfit_text fault }
{
    match fault {
        SettingsFault::Start => "the start time is no multiple of 1000000, or outside its limits",
        SettingsFault::First => "the first reading isn't valid",
        SettingsFault::Count => {
            "a number of schedulers, processes, slots or callers is outside its limits"
        }
    }
}
