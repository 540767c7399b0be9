//! The program `ertime` over streams in memory and a clock of given readings, of which a call fails: how it ends, and
//! what was written. What it writes of other input is told by the rows of `examples/messages`.
ghost use Rattle.std.specs.Prelude.{IfOk};
ghost use Rattle.ert_program.specs.Endings.{HasItsRefusal};

mod gates;
mod in_memory;

use ert_defs::Reading;
use ert_io::{MemClock, MemSink, MemSource};
use ert_program::{EndStatus, Ended, FreeGate, Gate, ertime};
use std::alloc::{AllocError, Global};
use std::sync::Wait;
use std::test::Fail;
use std::thread::Threads;

/// Forward and backward leaps of the OS clock, with little to open, and the transcript: 98 bytes.
const LEAP: &str = r#"{"format":1,"correction":false,"slots":1,"first":[0,10000000000],
    "ops":[["tick",0,12000000000],["tick",0,11000000000],["time"],["tick",0,13000000000],["system"]]}"#;

const LEAP_TEXT: &str =
    "tick 2000000000\ntick 2000000000\ntime 2000000000\ntick 3000000000\nsystem 13000000000\nend 3000000000\n";

/// Two callers cancel one timer.
pub(crate) const TWO_CANCELS: &str =
    r#"{"format":1,"correction":false,"first":[0,0],"ops":[["start",1,0,"rel",50,0,7]],
    "race":{"turns":1,"keeper":[],"callers":[[["cancel",1]],[["cancel",1]]]}}"#;

/// Both reports of that race, of 134 bytes each.
pub(crate) const EITHER_CANCELS: [&str; 2] = [
    "start ok\nkeeper\ncaller 1\ncancel 50\ncaller 2\ncancel false\nsettled armed 0 expired 0 delivered 0 dropped 0 cancelled 1 orphaned 0\nend 0\n",
    "start ok\nkeeper\ncaller 1\ncancel false\ncaller 2\ncancel 50\nsettled armed 0 expired 0 delivered 0 dropped 0 cancelled 1 orphaned 0\nend 0\n",
];

const READINGS: [(i64, i64); 3] = [
    (5_000_000_000, 1_767_225_600_000_000_000),
    (6_000_000_000, 1_767_225_601_000_000_000),
    (6_500_000_000, 1_767_225_601_500_000_000),
];

const THREE_READINGS: &str =
    "live 0 1767225600000000000\nlive 1000000000 1767225601000000000\nlive 1500000000 1767225601500000000\nend 1500000000\n";

const TWO_READINGS: &str =
    "live 0 1767225600000000000\nlive 1000000000 1767225601000000000\nend 1000000000\n";

/// What a run is given, and the texts of which what it writes may be the first bytes.
#[derive(Clone, Copy)]
pub(crate) struct Given {
    words: &'static [&'static str],
    text: &'static str,
    readings: &'static [(i64, i64)],
    texts: &'static [&'static str],
}

pub(crate) const RACE: Given = Given {
    words: &["race"],
    text: TWO_CANCELS,
    readings: &[],
    texts: &EITHER_CANCELS,
};

/// The call that fails of the reads, of the writes and of the readings of the clock, from 1, or 0 for none.
type Faults = (u32, u32, u32);

pub(crate) const NO_FAULT: Faults = (0, 0, 0);

/// Which run it is.
#[derive(Clone, Copy, Debug)]
enum Of {
    Leaps,
    Cancels,
    ThreeReadings,
    TwoReadings,
    SecondRefused,
    FirstRefused,
}

fn given_of(run: Of) -> Given {
    match run {
        Of::Leaps => Given {
            words: &["run"],
            text: LEAP,
            readings: &[],
            texts: &[LEAP_TEXT],
        },
        Of::Cancels => RACE,
        Of::ThreeReadings => live(&["live", "3"], &READINGS, &[THREE_READINGS]),
        Of::TwoReadings => live(&["live", "2"], &READINGS, &[TWO_READINGS]),
        Of::SecondRefused => live(
            &["live", "2"],
            &[(0, 0), (-1, 0)],
            &["live 0 0\nrefused reading 2\n"],
        ),
        Of::FirstRefused => live(&["live", "2"], &[(-1, 0), (0, 0)], &["refused reading 1\n"]),
    }
}

fn live(
    words: &'static [&'static str],
    readings: &'static [(i64, i64)],
    texts: &'static [&'static str],
) -> Given {
    Given {
        words,
        text: "",
        readings,
        texts,
    }
}

fn strings(alloc: Global, words: &[&str]) -> Result<Vec<String>, AllocError> {
    let mut all = Vec::new(alloc);
    for word in words {
        push_word(alloc, &mut all, word)?;
    }
    Ok(all)
}

fn push_word(alloc: Global, words: &mut Vec<String>, word: &str) -> Result<(), AllocError> {
    let word = String::from_str(alloc, word)?;
    words.push(word)?;
    Ok(())
}

fn clock_of(alloc: Global, readings: &[(i64, i64)], fails: u32) -> Result<MemClock, AllocError> {
    let mut all = Vec::new(alloc);
    for (mono, sys) in readings {
        all.push(Reading {
            mono: *mono,
            sys: *sys,
        })?;
    }
    Ok(MemClock::new(all, vec![in alloc; fails]?))
}

/// The program over these words, a source and a sink, with a clock and a gate.
fn call<R: AllocGlobal + Threads + Wait + Sync, G: Gate + Sync>(
    rt: &R,
    words: &[&str],
    input: &mut MemSource,
    output: &mut MemSink,
    mut clock: MemClock,
    gate: &G,
) -> Result<Ended, AllocError>
    ensures { IfOk result HasItsRefusal }
{
    let words = strings(rt.alloc(), words)?;
    Ok(ertime(rt, words.as_slice(), input, output, &mut clock, gate))
}

/// The status and the output of a run over a gate. Each write takes one byte.
pub(crate) fn end_of<R: AllocGlobal + Threads + Wait + Sync, G: Gate + Sync>(
    rt: &R,
    given: &Given,
    (read, write, reading): Faults,
    gate: &G,
) -> Result<(EndStatus, String), AllocError> {
    let alloc = rt.alloc();
    let text = given.text.as_bytes().to_vec(alloc)?;
    let mut input = MemSource::new(text, vec![in alloc; read]?);
    let mut output = MemSink::new(alloc, 1, vec![in alloc; write]?);
    let clock = clock_of(alloc, given.readings, reading)?;
    let ended = call(rt, given.words, &mut input, &mut output, clock, gate)?;
    Ok((
        ended.status,
        String::from_utf8_lossy(alloc, output.bytes())?,
    ))
}

/// A run, the call that fails, how it has to end, and how many bytes it writes.
type Run = (Of, Faults, EndStatus, usize);

/// Whether a run ends as it has to.
fn is_right<R: AllocGlobal + Threads + Wait + Sync>(
    rt: &R,
    (run, faults, wanted, length): Run,
) -> Result<bool, AllocError> {
    let given = given_of(run);
    let (status, written) = end_of(rt, &given, faults, &FreeGate)?;
    let text = written.as_str();
    let begins = given.texts.iter().any(|all| all.starts_with(text));
    Ok(status == wanted && text.len() == length && begins)
}

const RUNS: [Run; 21] = [
    // The first read gives the whole text, and the second its end.
    (Of::Leaps, (1, 0, 0), EndStatus::ReadFault, 0),
    (Of::Leaps, (2, 0, 0), EndStatus::ReadFault, 0),
    (Of::Leaps, (3, 0, 0), EndStatus::Done, 98),
    // Each write takes one byte.
    (Of::Leaps, (0, 1, 0), EndStatus::WriteFault, 0),
    (Of::Leaps, (0, 50, 0), EndStatus::WriteFault, 49),
    (Of::Leaps, (0, 98, 0), EndStatus::WriteFault, 97),
    (Of::Leaps, (0, 99, 0), EndStatus::Done, 98),
    (Of::Cancels, NO_FAULT, EndStatus::Done, 134),
    (Of::Cancels, (1, 0, 0), EndStatus::ReadFault, 0),
    (Of::Cancels, (2, 0, 0), EndStatus::ReadFault, 0),
    (Of::Cancels, (0, 1, 0), EndStatus::WriteFault, 0),
    (Of::Cancels, (0, 10, 0), EndStatus::WriteFault, 9),
    (Of::Cancels, (0, 134, 0), EndStatus::WriteFault, 133),
    (Of::Cancels, (0, 135, 0), EndStatus::Done, 134),
    (Of::ThreeReadings, NO_FAULT, EndStatus::Done, 114),
    (Of::ThreeReadings, (0, 0, 1), EndStatus::ClockFault, 0),
    (Of::ThreeReadings, (0, 0, 2), EndStatus::ClockFault, 27),
    (Of::ThreeReadings, (0, 0, 3), EndStatus::ClockFault, 63),
    (Of::TwoReadings, NO_FAULT, EndStatus::Done, 78),
    (Of::SecondRefused, NO_FAULT, EndStatus::Refused, 27),
    (Of::FirstRefused, NO_FAULT, EndStatus::Refused, 18),
];

#[test]
fn a_run_ends_where_a_call_fails(rt: HostRuntime) -> Result<(), Fail> {
    for run in RUNS {
        assert!(rt; is_right(&rt, run)?, "{run:?}");
    }
    Ok(())
}
