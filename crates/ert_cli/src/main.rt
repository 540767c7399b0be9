//! The program `ertime`: it reads a scenario of the clock and timer service, and writes one line for each reply.
//!
//! `main` only hands the command line, the standard streams and the machine's clock to `ertime` of `ert_program`,
//! whose contract says what each status means, of the bytes that the reads of these streams gave, of those that their
//! writes took, and of the readings. Where that has refused its input, `explain` of `ert_explain` writes the
//! message that tells why to standard error.
#![tactic(auto)]

use ert_explain::explain;
use ert_io::{HostClock, StdSink, StdSource};
use ert_program::{EndStatus, FreeGate, ertime};
use std::io::ErrorKind;
use std::process::ExitCode;
use std::rt::Env;
use std::{env, io};

fn main(rt: HostRuntime) -> ExitCode {
    let words = match command_line(&rt) {
        Ok(words) => words,
        Err(e) if e.kind() == ErrorKind::OutOfMemory => {
            return ExitCode::from(EndStatus::NoMemory.code());
        }
        // A word that isn't UTF-8 is none of the program's.
        Err(_) => Vec::new(rt.alloc()),
    };
    let mut input = StdSource::new(rt.reader());
    let mut output = StdSink::new(io::writer(&rt));
    let mut clock = HostClock::new(&rt);
    let ended = ertime(
        &rt,
        words.as_slice(),
        &mut input,
        &mut output,
        &mut clock,
        &FreeGate,
    );
    if let Some(refusal) = &ended.refusal {
        explain(
            rt.alloc(),
            refusal.bytes.as_slice(),
            refusal.race,
            &refusal.why,
            &mut StdSink::new(rt.stderr()),
        );
    }
    ExitCode::from(ended.status.code())
}

// The words of the command line, without the program's name.
fn command_line<R: Env + AllocGlobal>(rt: &R) -> io::Result<Vec<String>> {
    let mut words = Vec::new(rt.alloc());
    for word in env::args(rt)?.skip(1) {
        words.push(word)?;
    }
    Ok(words)
}
