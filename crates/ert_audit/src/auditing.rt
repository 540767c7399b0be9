ghost use Rattle.std.specs.Prelude.{◌≡◌, ◌⊎◌, ◌≤◌, ◌++◌, ℕ, List, Some, None, IsTrue, false, length, string_bytes};
ghost use Rattle.ert_io.specs.{Faults.Rose, Known.{stream_told, HandsUpTo}, Reads.{ReadsMore, input_of}, Writing.WritesFront};
ghost use Rattle.ert_audit.specs.{Audits.{IsVerdict, Judges, StopsInLine, status_telling}, Verdicts.{HasVerdict, verdict_line}};
ghost use Rattle.ert_audit.specs.declared.verdict.Verdict as verdicts;

use crate::explaining::message_on;
use crate::status::AuditStatus;
use crate::verdict::{Finding, Verdict, find_in, one_verdict, write_verdict};
use ert_io::{MAX_INPUT, ReadErr, Sink, Source, read_all, write_all};
use std::alloc::Global;
use std::marker::Model;

/// How an audit ended, and of which text.
#[derive(Drop)]
pub struct Audited {
    status: AuditStatus,
    /// The text that was judged, where the status tells its verdict.
    text: Vec<u8>,
    /// What was found of the text.
    finding: Option<Finding>,
}

impl Model for Audited {
    ghost use Rattle.std.specs.Prelude.{IfSome};
    ghost use Rattle.ert_audit.specs.{Audits.AuditEnd, Findings.IsFound};

    ghost Value = { AuditEnd };

    ghost view = { λ a. record { status = a.status; text = a.text.items } };

    ghost invariant = { λ a. IfSome a.finding (IsFound a.text.items) };
}

impl Audited {
    ghost use Rattle.std.specs.Prelude.{◌≡◌, IfSome};
    ghost use Rattle.ert_audit.specs.{Audits.status_telling, Explained.IsMessage};

    /// How it ended.
    pub fn status(&self) -> AuditStatus
        ensures { result ≡ self.now.status }
    {
        self.status
    }

    /// The message that tells why the history isn't legal, or the text spells none, where the status says so; none if memory
    /// runs out.
    pub fn message(&self, alloc: Global) -> Option<String>
        ensures { IfSome result (λ message. IsMessage self.now.status self.now.text (string_bytes message)) }
    {
        let finding = self.finding?;
        if status_of(finding.verdict()) == self.status {
            message_on(alloc, &self.text, finding)
        } else {
            None
        }
    }
}

/// The audit: it reads a history from the input, and writes one line to the output, which tells whether the
/// history is legal. Why it isn't, `explain` tells.
///
/// The output doesn't tell its room.
pub fn audit<R: AllocGlobal, I: Source, O: Sink>(rt: &R, input: &mut I, output: &mut O) -> Audited
    requires { O.room output.old ≡ None }

    // The input was read to its end, its text has this verdict, and the line of that was written.
    ensures judged { IsVerdict result.status → Judges result.status result.text (input_of I.given I.ended I.left I.faults input.old) (input_of I.given I.ended I.left I.faults input.new)
        (O.taken output.old) (O.taken output.new) }
    ensures read_fault { result.status ≡ AuditStatus.ReadFault → Rose (I.faults input.old) (I.faults input.new) × (output.new ≡ output.old) }
    ensures read_in_part { result.status ≡ AuditStatus.ReadFault
        → HandsUpTo 16777216 (stream_told (I.given input.old) (I.left input.old)) (stream_told (I.given input.new) (I.left input.new)) }
    ensures too_long { result.status ≡ AuditStatus.TooLong → (output.new ≡ output.old)
        × ReadsMore (input_of I.given I.ended I.left I.faults input.old) (input_of I.given I.ended I.left I.faults input.new) }
    ensures write_fault { result.status ≡ AuditStatus.WriteFault → Rose (O.faults output.old) (O.faults output.new) }

    // After a failed write, or without memory, the first part of the line stands.
    ensures stops { (result.status ≡ AuditStatus.WriteFault) ⊎ (result.status ≡ AuditStatus.NoMemory)
        → (output.new ≡ output.old) ⊎ StopsInLine (input_of I.given I.ended I.left I.faults input.old) (input_of I.given I.ended I.left I.faults input.new)
        (O.taken output.old) (O.taken output.new) }
    ensures takes_up_to { (result.status ≡ AuditStatus.WriteFault) ⊎ (result.status ≡ AuditStatus.NoMemory)
        → HandsUpTo 16777217 (stream_told (I.given input.old) (I.left input.old)) (stream_told (I.given input.new) (I.left input.new)) }

    // Where nothing fails, only running out of memory keeps a text from its verdict.
    ensures complete { (Rose (I.faults input.old) (I.faults input.new) → ⊥) → (Rose (O.faults output.old) (O.faults output.new) → ⊥)
        → (text : List ℕ) (verdict : verdicts.Verdict) → I.left input.old ≡ Some text → length text ≤ 16777216 → HasVerdict text verdict
        → (result.status ≡ status_telling verdict) ⊎ (result.status ≡ AuditStatus.NoMemory) }
    ensures later { I.faults input.old ≤ I.faults input.new }
    ensures later_out { O.faults output.old ≤ O.faults output.new }
{
    one_verdict();
    match read_all(rt.alloc(), input, MAX_INPUT) {
        Ok(text) => match find_in(rt.alloc(), &text) {
            Ok(finding) => Audited {
                status: tell(rt.alloc(), finding.verdict(), output),
                text,
                finding: Some(finding),
            },
            Err(_) => without_text(rt.alloc(), AuditStatus::NoMemory),
        },
        Err(ReadErr::ReadFault) => without_text(rt.alloc(), AuditStatus::ReadFault),
        Err(ReadErr::TooLong) => without_text(rt.alloc(), AuditStatus::TooLong),
        Err(ReadErr::NoMemory) => without_text(rt.alloc(), AuditStatus::NoMemory),
    }
}

/// The end of an audit in which no text was judged.
fn without_text(alloc: Global, status: AuditStatus) -> Audited
    ensures { result.status ≡ status }
{
    Audited {
        status,
        text: Vec::new(alloc),
        finding: None,
    }
}

/// Writes the line of a verdict.
fn tell<O: Sink>(alloc: Global, verdict: Verdict, output: &mut O) -> AuditStatus
    requires { O.room output.old ≡ None }
    ensures which { (result ≡ status_telling verdict) ⊎ (result ≡ AuditStatus.WriteFault) ⊎ (result ≡ AuditStatus.NoMemory) }
    ensures told { result ≡ status_telling verdict → O.taken output.new ≡ O.taken output.old ++ verdict_line verdict }
    ensures front { WritesFront (O.taken output.old) (O.taken output.new) (verdict_line verdict) }
    ensures later { O.faults output.old ≤ O.faults output.new }
    ensures cause { result ≡ AuditStatus.WriteFault → Rose (O.faults output.old) (O.faults output.new) }
{
    let mut page = String::new(alloc);
    if write_verdict(&mut page, verdict).is_err() {
        return AuditStatus::NoMemory;
    }
    if write_line(output, page.as_bytes()) {
        status_of(verdict)
    } else {
        AuditStatus::WriteFault
    }
}

/// Writes a line, and tells whether all of it was written.
fn write_line<O: Sink>(output: &mut O, line: &[u8]) -> bool
    requires { O.room output.old ≡ None }
    ensures whole { IsTrue result → O.taken output.new ≡ O.taken output.old ++ line.now }
    ensures front { WritesFront (O.taken output.old) (O.taken output.new) line.now }
    ensures later { O.faults output.old ≤ O.faults output.new }
    ensures cause { result ≡ false → Rose (O.faults output.old) (O.faults output.new) }
{
    write_all(output, line).is_ok()
}

/// The status that tells a verdict.
pub fn status_of(verdict: Verdict) -> AuditStatus
    ensures { result ≡ status_telling verdict }
{
    match verdict {
        Verdict::Legal { .. } => AuditStatus::Legal,
        Verdict::Illegal { .. } => AuditStatus::Illegal,
        Verdict::Refused { .. } => AuditStatus::Refused,
    }
}
