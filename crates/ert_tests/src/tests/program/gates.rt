//! Races over gates that hold a step. What comes of these races where nothing holds a thread is shown by
//! `examples/races`.
//!
//! In all of them there is one scheduler. So worker 0 does the keeper list, worker 1 makes the turns, and worker
//! 2 and the workers after it do the lists of the callers from 1 on.
use super::{EITHER_CANCELS, Given, NO_FAULT, RACE, TWO_CANCELS, end_of};
use ert_program::{EndStatus, LedgerGate};
use std::alloc::AllocError;
use std::process::Abort;
use std::sync::Wait;
use std::test::Fail;
use std::thread::Threads;

/// How often a gate tries before it lets go.
const TRIES: u64 = 20_000_000;

// A timer is due, beside a caller that cancels it and then receives.
const CANCEL_OR_EXPIRY: &str = r#"{"format":1,"correction":false,"first":[0,0],
    "ops":[["start",1,0,"rel",1,0,7],["tick",0,1000000]],
    "race":{"turns":2,"keeper":[],"callers":[[["cancel",1],["receive",0]]]}}"#;

const CANCELLED: &str = "start ok\ntick 1000000\nkeeper\ncaller 1\ncancel 0\nreceive empty\n\
    settled armed 0 expired 0 delivered 0 dropped 0 cancelled 1 orphaned 0\nend 1000000\n";

const RECEIVED: &str =
    "start ok\ntick 1000000\nkeeper\ncaller 1\ncancel false\nreceive timeout 1 7\n\
    settled armed 0 expired 0 delivered 1 dropped 0 cancelled 0 orphaned 0\nend 1000000\n";

// A process exits, beside a caller that starts a timer for it: the timer never stays armed.
const EXIT_AND_START: &str = r#"{"format":1,"processes":2,"first":[0,0],"ops":[],
    "race":{"turns":0,"keeper":[],"callers":[[["exit",1]],[["start",1,0,"rel",5,1,0],["read",1]]]}}"#;

const READ_IN_TIME: &str = "keeper\ncaller 1\nexit ok\ncaller 2\nstart ok\nread 5\n\
    settled armed 0 expired 0 delivered 0 dropped 0 cancelled 0 orphaned 1\nend 0\n";

const READ_TOO_LATE: &str = "keeper\ncaller 1\nexit ok\ncaller 2\nstart ok\nread false\n\
    settled armed 0 expired 0 delivered 0 dropped 0 cancelled 0 orphaned 1\nend 0\n";

const READ_OR_NOT: [&str; 2] = [READ_IN_TIME, READ_TOO_LATE];

// Time passes and its offset is moved, beside a caller that asks for system time: it looks up a time, and then
// an offset.
const WARP: &str =
    r#"{"format":1,"mode":"multi","correction":false,"first":[0,10000000000],"ops":[],
    "race":{"turns":0,"keeper":[["tick",0,12000000000],["check",0,11000000000]],"callers":[[["system"]]]}}"#;

const AT_11: &str =
    "keeper\ntick 2000000000\ncheck 2000000000 offset 9000000000\ncaller 1\nsystem 11000000000\n\
    settled armed 0 expired 0 delivered 0 dropped 0 cancelled 0 orphaned 0\nend 2000000000\n";

const AT_12: &str =
    "keeper\ntick 2000000000\ncheck 2000000000 offset 9000000000\ncaller 1\nsystem 12000000000\n\
    settled armed 0 expired 0 delivered 0 dropped 0 cancelled 0 orphaned 0\nend 2000000000\n";

/// A race, the worker whose first step is held, the step of another that it waits for, and the reports that may come.
type Row = (&'static str, u32, (u32, u64), &'static [&'static str]);

const ROWS: [Row; 6] = [
    (TWO_CANCELS, 2, (3, 1), &EITHER_CANCELS),
    (TWO_CANCELS, 3, (2, 1), &EITHER_CANCELS),
    // The first turn waits until the caller has cancelled.
    (CANCEL_OR_EXPIRY, 1, (2, 2), &[CANCELLED]),
    // The cancel waits until the first turn was made.
    (CANCEL_OR_EXPIRY, 2, (1, 2), &[RECEIVED]),
    // The exit waits until the timer was started.
    (EXIT_AND_START, 2, (3, 2), &READ_OR_NOT),
    // The caller waits until the time has passed.
    (WARP, 2, (0, 2), &[AT_11, AT_12]),
];

/// Runs a race over its gate.
fn hold<R: AllocGlobal + Threads + Wait + Abort + Sync>(
    rt: &R,
    (race, held, awaited, reports): Row,
) -> Result<(), AllocError> {
    let gate = LedgerGate::new((held, 1), awaited, TRIES);
    let given = Given { text: race, ..RACE };
    let (status, report) = end_of(rt, &given, NO_FAULT, &gate)?;
    let is_one = reports.iter().any(|one| *one == report.as_str());
    assert!(rt; status == EndStatus::Done && is_one, "{report} of {race}");
    assert!(rt; gate.has_held(), "no turn came to the gate in {race}");
    assert!(rt; !gate.has_let_go(), "the gate let go in {race}");
    Ok(())
}

// Each row holds the first step of a worker until a step of another has begun. No gate lets go, so the workers
// run at once: the first two rows hold either of two workers until the other has begun, and were these run one
// after the other, in whatever order, one of the two gates would let go.
#[test]
fn over_gates_that_hold_a_step(rt: HostRuntime) -> Result<(), Fail> {
    for row in ROWS {
        hold(&rt, row)?;
    }
    Ok(())
}
