ghost use Rattle.std.specs.Prelude.{◌≡◌, ◌<◌, ◌≤◌, [], ◌++◌, length, IfOk, OnOk, OnErr};
ghost use Rattle.ert_io.specs.Faults.{one_more};

use ert_io::{Failed, Sink};
use std::alloc::Global;

/// A sink into memory that grows. A write fails only where there is no memory for its bytes.
#[derive(Debug, Drop)]
pub(crate) struct TextSink {
    text: Vec<u8>,
    // How many writes failed, up to the last value of the type.
    faults: u64,
}

impl TextSink {
    ghost use Rattle.ert_text.specs.Sinks.{text_of};

    /// Has taken nothing.
    pub(crate) fn new(alloc: Global) -> TextSink
        ensures text { text_of result ≡ [] }
        ensures faults { ⟦<Self as Sink>⟧.faults result ≡ 0 }
    {
        TextSink {
            text: Vec::new(alloc),
            faults: 0,
        }
    }

    /// All bytes that were taken.
    pub(crate) fn into_text(self) -> Vec<u8>
        ensures { result.items ≡ text_of self }
    {
        self.text
    }
}

impl Sink for TextSink {
    ghost use Rattle.ert_text.specs.Sinks.{text_of};

    ghost faults = { λ s. s.faults };

    ghost taken = { λ s. text_of s };

    fn write(&mut self, bytes: &[u8]) -> Result<usize, Failed>
        requires { 0 < length bytes.now }
        ensures count { IfOk result (λ n. n ≡ length bytes.now) }
        ensures bytes { OnOk result (text_of self.new ≡ text_of self.old ++ bytes.now) }
        ensures kept { OnErr result (text_of self.new ≡ text_of self.old) }
        ensures ok { OnOk result (⟦<Self as Sink>⟧.faults self.new ≡ ⟦<Self as Sink>⟧.faults self.old) }
        ensures err { OnErr result (⟦<Self as Sink>⟧.faults self.new ≡ one_more (⟦<Self as Sink>⟧.faults self.old)) }
        ensures later { ⟦<Self as Sink>⟧.faults self.old ≤ ⟦<Self as Sink>⟧.faults self.new }
    {
        match self.text.extend_from_slice(bytes) {
            Ok(()) => Ok(bytes.len()),
            Err(_) => {
                self.faults = self.faults.saturating_add(1);
                Err(Failed)
            }
        }
    }
}
