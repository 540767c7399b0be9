ghost use Rattle.std.specs.Prelude.{◌≡◌, [], IfOk};
ghost use Rattle.ert_text.specs.Answers.{text_code};

use std::alloc::{AllocError, Global};

/// How a command over a text ended.
#[derive(Clone, Copy, Debug, PartialEq, Eq)]
pub enum TextStatus {
    /// The scenario was run, or the history is legal.
    Done,
    /// The text spells a history, and an entry of it isn't legal.
    Illegal,
    /// The text is no scenario, or spells no history.
    Refused,
    /// Memory ran out.
    NoMemory,
    /// The text is longer than 16,777,216 bytes.
    TooLong,
}

impl TextStatus {
    /// The number that the program ends with.
    pub fn code(self) -> u8
        ensures { result ≡ text_code self }
    {
        match self {
            TextStatus::Done => 0,
            TextStatus::Illegal => 1,
            TextStatus::Refused => 3,
            TextStatus::NoMemory => 7,
            TextStatus::TooLong => 8,
        }
    }
}

/// What a command answers to a text.
#[derive(Debug, Drop)]
pub struct Answer {
    pub status: TextStatus,
    /// What the program writes to standard output: a transcript, a verdict or a refusal. Empty at `NoMemory` and
    /// `TooLong`.
    pub output: Vec<u8>,
    /// What it writes to standard error: the message that explains a refusal, or why an entry isn't legal. Empty where
    /// there is nothing to explain.
    pub errors: Vec<u8>,
}

/// An answer without any text.
pub(crate) fn bare(alloc: Global, status: TextStatus) -> Answer
    ensures status { result.status ≡ status }
    ensures output { result.output.items ≡ [] }
    ensures errors { result.errors.items ≡ [] }
{
    Answer {
        status,
        output: Vec::new(alloc),
        errors: Vec::new(alloc),
    }
}

/// The bytes in memory of their own.
pub(crate) fn copied(alloc: Global, bytes: &[u8]) -> Result<Vec<u8>, AllocError>
    ensures { IfOk result (λ v. v.items ≡ bytes.now) }
{
    let mut whole = Vec::new(alloc);
    whole.extend_from_slice(bytes)?;
    Ok(whole)
}
