//! The errors of streams in words. How a run goes on over streams in memory of which a call fails is told by `program`.
use ert_io::{ReadErr, WriteErr};
use std::alloc::Global;
use std::fmt::Display;
use std::process::Abort;

/// An error's message is this text.
fn says<E: Display>(rt: &impl Abort, alloc: Global, error: &E, text: &str) {
    let message = format!(in alloc; "{error}").expect(rt, "there is memory");
    assert!(rt; message.as_str() == text, "{message}, not {text}");
}

#[test]
fn errors_are_told_in_words(rt: HostRuntime) {
    for (error, text) in [
        (ReadErr::ReadFault, "a read failed"),
        (ReadErr::TooLong, "there are more bytes than the limit"),
        (ReadErr::NoMemory, "out of memory"),
    ] {
        says(&rt, rt.alloc(), &error, text);
    }
    let error = WriteErr::WriteFault { written: 20 };
    says(&rt, rt.alloc(), &error, "a write failed after 20 bytes");
}
