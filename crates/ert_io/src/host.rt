ghost use Rattle.std.specs.Prelude.{◌≡◌, ◌<◌, ◌≤◌, [], ◌++◌, false, length, take, nat_eq, IfOk, OnOk, OnErr};
ghost use Rattle.std.specs.Io.KnownBytes.{ReadConsumes, WriteAppends};
ghost use Rattle.ert_io.specs.{Faults.one_more, Host.{reader_of, writer_of}};

use crate::failed::Failed;
use crate::log::Log;
use crate::sink::Sink;
use crate::source::Source;
use std::io::{Read, Write};

/// A source over one of std's readers. It tells what its reads gave, and not what it has left.
///
/// Each read is one read of `inner`. That of a file or of standard input makes one system call, and
/// doesn't repeat one that a signal interrupts: such a read is a failure as any other.
#[derive(Debug, Drop)]
pub struct StdSource<R> {
    inner: R,
    faults: u64,
    // What the reads gave, and whether the last of them told the end.
    log: Log<u8>,
}

impl<R: Read> StdSource<R> {
    /// Reads from `inner`, whose failures so far don't count.
    pub fn new(inner: R) -> StdSource<R>
        ensures reader { reader_of result ≡ inner }
        ensures faults { ⟦<Self as Source>⟧.faults result ≡ 0 }
        ensures given { ⟦<Self as Source>⟧.given result ≡ [] }
        ensures ended { ⟦<Self as Source>⟧.ended result ≡ false }
    {
        StdSource {
            inner,
            faults: 0,
            log: Log::new(),
        }
    }
}

impl<R: Read> Source for StdSource<R> {
    ghost faults = { λ s. s.faults };

    ghost given = { λ s. s.log.items };

    ghost ended = { λ s. s.log.ended };

    fn read(&mut self, buf: &mut [u8]) -> Result<usize, Failed>
        requires { 0 < length buf.old }
        ensures bound { IfOk result (λ n. n ≤ length buf.new) }
        ensures given { IfOk result (λ n. ⟦<Self as Source>⟧.given self.new ≡ ⟦<Self as Source>⟧.given self.old ++ take n buf.new) }
        // It has ended exactly if this read gave no byte.
        ensures ended { IfOk result (λ n. ⟦<Self as Source>⟧.ended self.new ≡ nat_eq n 0) }
        ensures kept { OnErr result (⟦<Self as Source>⟧.given self.new ≡ ⟦<Self as Source>⟧.given self.old) }
        ensures ended_kept { OnErr result (⟦<Self as Source>⟧.ended self.new ≡ ⟦<Self as Source>⟧.ended self.old) }
        // Where the reader tells its bytes, these are them, and none only at their end.
        ensures reader { ReadConsumes (R.remaining (reader_of self.old)) (R.remaining (reader_of self.new)) result buf.new }
        ensures ok { OnOk result (⟦<Self as Source>⟧.faults self.new ≡ ⟦<Self as Source>⟧.faults self.old) }
        ensures err { OnErr result (⟦<Self as Source>⟧.faults self.new ≡ one_more (⟦<Self as Source>⟧.faults self.old)) }
        ensures later { ⟦<Self as Source>⟧.faults self.old ≤ ⟦<Self as Source>⟧.faults self.new }
    {
        match self.inner.read(buf) {
            Ok(count) => {
                self.log = self.log.and(&buf[..count]);
                Ok(count)
            }
            Err(_) => {
                self.faults = self.faults.saturating_add(1);
                Err(Failed)
            }
        }
    }
}

/// A sink over one of std's writers. It tells what it took, and not the room that it has.
///
/// Each write is one write of `inner`. That of a file or of standard output makes one system call, and
/// doesn't repeat one that a signal interrupts: such a write is a failure as any other. A write that
/// takes no byte is one too.
#[derive(Debug, Drop)]
pub struct StdSink<W> {
    inner: W,
    faults: u64,
    // What was taken.
    log: Log<u8>,
}

impl<W: Write> StdSink<W> {
    /// Writes to `inner`, whose failures so far don't count.
    pub fn new(inner: W) -> StdSink<W>
        ensures writer { writer_of result ≡ inner }
        ensures faults { ⟦<Self as Sink>⟧.faults result ≡ 0 }
        ensures taken { ⟦<Self as Sink>⟧.taken result ≡ [] }
    {
        StdSink {
            inner,
            faults: 0,
            log: Log::new(),
        }
    }
}

impl<W: Write> Sink for StdSink<W> {
    ghost faults = { λ s. s.faults };

    ghost taken = { λ s. s.log.items };

    fn write(&mut self, bytes: &[u8]) -> Result<usize, Failed>
        requires { 0 < length bytes.now }
        ensures least { IfOk result (λ n. 0 < n) }
        ensures most { IfOk result (λ n. n ≤ length bytes.now) }
        ensures bytes { IfOk result (λ n. ⟦<Self as Sink>⟧.taken self.new ≡ ⟦<Self as Sink>⟧.taken self.old ++ take n bytes.now) }
        ensures kept { OnErr result (⟦<Self as Sink>⟧.taken self.new ≡ ⟦<Self as Sink>⟧.taken self.old) }
        // Where the writer tells its bytes, these were appended to them.
        ensures writer { WriteAppends (W.contents (writer_of self.old)) (W.contents (writer_of self.new)) result bytes.now }
        ensures ok { OnOk result (⟦<Self as Sink>⟧.faults self.new ≡ ⟦<Self as Sink>⟧.faults self.old) }
        ensures err { OnErr result (⟦<Self as Sink>⟧.faults self.new ≡ one_more (⟦<Self as Sink>⟧.faults self.old)) }
        ensures later { ⟦<Self as Sink>⟧.faults self.old ≤ ⟦<Self as Sink>⟧.faults self.new }
    {
        match self.inner.write(bytes) {
            Ok(count) if count > 0 => {
                self.log = self.log.and(&bytes[..count]);
                Ok(count)
            }
            _ => {
                self.faults = self.faults.saturating_add(1);
                Err(Failed)
            }
        }
    }
}
