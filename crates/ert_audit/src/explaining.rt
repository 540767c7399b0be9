//! Why a text has its verdict, for a person. No contract of the audit speaks of it.

ghost use Rattle.std.specs.Prelude.{◌≡◌, ◌⊎◌, ◌≤◌, ◌++◌, codes, IfSome, OnOk, None, string_bytes};
ghost use Rattle.ert_audit.specs.{Audits.status_telling, Explained.{IsMessage, TellsPart}, Findings.{IsFound, IsIllegalBy, finding_verdict}, Messages.{line_front, shortened, illegal_message, IsIllegalMessage}, Refusals.IsRefusalMessage};
ghost use Rattle.ert_audit.specs.{Spelling.MisspelledAt};
ghost use Rattle.ert_io.specs.Writing.{WritesFront};
ghost use Rattle.ert_judge.specs.Texts.{◌⋅◌, reason_text};

use crate::auditing::Audited;
use crate::lines::{line_after, write_shown};
use crate::refusing::{refusal_of, write_refusal};
use crate::verdict::Finding;
use ert_io::{Sink, write_all};
use ert_judge::{Reason, write_reason};
use std::alloc::{AllocError, Global};
use std::fmt::Write;

/// Writes why a history isn't legal, or a text spells none, for a person, as far as it can be written and
/// there is memory for it; after an audit that ended otherwise, nothing.
///
/// The sink doesn't tell its room.
pub fn explain<E: Sink>(alloc: Global, audited: &Audited, errors: &mut E)
    requires { E.room errors.old ≡ None }

    // Of the message only a first part may stand there. Without memory for it there is none.
    ensures explained { (errors.new ≡ errors.old)
        ⊎ TellsPart audited.now.status audited.now.text (E.taken errors.old) (E.taken errors.new) }
    ensures later { E.faults errors.old ≤ E.faults errors.new }
{
    if let Some(message) = audited.message(alloc) {
        write_message(errors, message.as_bytes());
    }
}

/// The message on a text of which this was found: there is one where the history isn't legal or the text spells none,
/// unless memory runs out.
pub fn message_on(alloc: Global, text: &[u8], finding: Finding) -> Option<String>
    requires { IsFound text.now finding }
    ensures { IfSome result (λ message. IsMessage (status_telling (finding_verdict finding)) text.now (string_bytes message)) }
{
    match finding {
        Finding::Legal { .. } => None,
        Finding::Illegal { line, why } => illegal_on(alloc, text, line, why),
        Finding::Refused { line } => refused_on(alloc, text, line),
    }
}

/// The message on a text that is misspelled from a line on.
fn refused_on(alloc: Global, text: &[u8], line: usize) -> Option<String>
    requires { MisspelledAt text.now line }
    ensures { IfSome result (λ message. IsRefusalMessage text.now (string_bytes message)) }
{
    let refusal = refusal_of(text, line);
    let bytes = line_after(text, line.saturating_sub(1));
    let mut page = String::new(alloc);
    match write_refusal(&mut page, bytes, line, refusal) {
        Ok(()) => Some(page),
        Err(_) => None,
    }
}

/// The message on a text that spells a history whose entry at a line isn't legal.
fn illegal_on(alloc: Global, text: &[u8], line: usize, why: Reason) -> Option<String>
    requires { IsIllegalBy text.now line why }
    ensures { IfSome result (λ message. IsIllegalMessage text.now (string_bytes message)) }
{
    let bytes = line_after(text, line.saturating_sub(1));
    let mut page = String::new(alloc);
    match write_illegal(&mut page, line, bytes, why) {
        Ok(()) => Some(page),
        Err(_) => None,
    }
}

/// Writes a message, as far as it goes.
fn write_message<E: Sink>(errors: &mut E, message: &[u8])
    requires { E.room errors.old ≡ None }
    ensures front { WritesFront (E.taken errors.old) (E.taken errors.new) message.now }
    ensures later { E.faults errors.old ≤ E.faults errors.new }
{
    let _ = write_all(errors, message);
}

/// Appends the message on an entry that isn't legal.
fn write_illegal(
    page: &mut String,
    line: usize,
    bytes: &[u8],
    reason: Reason,
) -> Result<(), AllocError>
    ensures { OnOk result (string_bytes page.new ≡ string_bytes page.old ++ illegal_message line bytes.now reason) }
{
    write!(page, "history:{line}: ")?;
    write_entry(page, bytes, reason)
}

/// Appends its line, and why it isn't.
fn write_entry(page: &mut String, bytes: &[u8], reason: Reason) -> Result<(), AllocError>
    ensures { OnOk result (string_bytes page.new ≡ string_bytes page.old ++ (shortened bytes.now ⋅ codes ": " ⋅ reason_text reason ⋅ codes "\n")) }
{
    write_shown(page, bytes)?;
    write_why(page, reason)
}

fn write_why(page: &mut String, reason: Reason) -> Result<(), AllocError>
    ensures { OnOk result (string_bytes page.new ≡ string_bytes page.old ++ (codes ": " ⋅ reason_text reason ⋅ codes "\n")) }
{
    write!(page, ": ")?;
    write_ended(page, reason)
}

fn write_ended(page: &mut String, reason: Reason) -> Result<(), AllocError>
    ensures { OnOk result (string_bytes page.new ≡ string_bytes page.old ++ (reason_text reason ⋅ codes "\n")) }
{
    write_reason(page, reason)?;
    write!(page, "\n")
}
