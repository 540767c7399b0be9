//! The program `ertaudit`: it reads a history of the clock and timer service, and tells whether it is legal.
//!
//! `main` only hands the standard streams to `audit` of `ert_audit`, whose contract says what each status means, of the
//! bytes that the reads gave and of those that the writes took, and then to `explain`, which writes the message that tells
//! why to standard error.
#![tactic(auto)]

use ert_audit::{audit, explain};
use ert_io::{StdSink, StdSource};
use std::io;
use std::process::ExitCode;

fn main(rt: HostRuntime) -> ExitCode {
    let mut input = StdSource::new(rt.reader());
    let mut output = StdSink::new(io::writer(&rt));
    let audited = audit(&rt, &mut input, &mut output);
    let mut errors = StdSink::new(rt.stderr());
    explain(rt.alloc(), &audited, &mut errors);
    ExitCode::from(audited.status().code())
}
