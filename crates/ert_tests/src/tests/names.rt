//! Names of processes: a name that goes to another process before its timer expires, and a process that exits.

use crate::tests::compare::same;
use crate::tests::settings::SMALL;
use crate::tests::world_calls::{is_process, is_scheduler};
use ert_defs::{Kind, NoMemory, Reading, Settings, TimerRef, When};
use ert_effects::StartErr;
use ert_names::{NameErr, NameWorld, NamedMail, NamedTaken, NamedTurn};
use std::process::Abort;

/// One scheduler with one slot, and three processes.
const SETTINGS: Settings = Settings {
    processes: 3,
    ..SMALL
};

/// The first timer.
const A: TimerRef = TimerRef {
    wheel: 0,
    slot: 0,
    generation: 1,
};

const REFUSED: Result<(), NameErr> = Err(NameErr::BadArg);

/// A call, its arguments, and last its answer.
enum Step {
    Register(&'static str, u32, Result<(), NameErr>),
    Unregister(&'static str, bool),
    Whereis(&'static str, Option<u32>),
    /// The milliseconds, the name and the message of a timer.
    Start(i64, &'static str, u64, Kind, Result<TimerRef, StartErr>),
    Read(TimerRef, Option<u64>),
    /// OS system time. It is accepted.
    Tick(i64),
    /// How many messages were handed over, and how many were lost.
    Turn(u64, u64),
    Take(u32, NamedTaken),
    /// The exit of a process that isn't the registrar.
    Exit(u32, bool),
}

/// Makes each call in turn.
fn go(rt: &impl Abort, service: &mut NameWorld, steps: &[Step]) {
    for (at, step) in steps.iter().enumerate() {
        go_on(rt, service, at, step);
    }
}

fn go_on(rt: &impl Abort, service: &mut NameWorld, at: usize, step: &Step) {
    match *step {
        Step::Register(name, process, registered) => {
            register(rt, service, at, name, process, registered);
        }
        Step::Unregister(name, was) => same(rt, at, &service.unregister(name), &was),
        Step::Whereis(name, process) => same(rt, at, &service.whereis(name), &process),
        Step::Start(left, name, msg, kind, started) => {
            is_scheduler(rt, service.world(), 0);
            let timer = service.start_named(0, When::After(left), name, msg, kind);
            same(rt, at, &timer, &started);
        }
        Step::Read(timer, left) => same(rt, at, &service.read_timer(timer), &left),
        Step::Tick(sys) => {
            let moved = service.tick(Reading { mono: 0, sys }, false);
            same(rt, at, &moved.is_ok(), &true);
        }
        Step::Turn(handed, lost) => {
            is_scheduler(rt, service.world(), 0);
            let turn = service.turn(0).map(counts);
            same(rt, at, &turn, &Ok((handed, lost)));
        }
        Step::Take(process, taken) => {
            is_process(rt, service.world(), process);
            same(rt, at, &service.take_named(process), &taken);
        }
        Step::Exit(process, exits) => {
            assert!(rt; process != 0);
            is_process(rt, service.world(), process);
            same(rt, at, &service.exit(process), &exits);
        }
    }
}

fn register(
    rt: &impl Abort,
    service: &mut NameWorld,
    at: usize,
    name: &str,
    process: u32,
    registered: Result<(), NameErr>,
) {
    is_process(rt, service.world(), process);
    same(rt, at, &service.register(name, process), &registered);
}

fn counts(turn: NamedTurn) -> (u64, u64) {
    (turn.handed, turn.lost)
}

const MAIL: NamedMail = NamedMail {
    timer: A,
    msg: 7,
    kind: Kind::Wrapped,
};

const FOLLOWS: [Step; 9] = [
    Step::Register("db", 1, Ok(())),
    Step::Start(1, "db", 7, Kind::Wrapped, Ok(A)),
    Step::Unregister("db", true),
    Step::Register("db", 2, Ok(())),
    Step::Tick(1_000_000),
    Step::Turn(1, 0),
    Step::Take(1, NamedTaken::Empty),
    Step::Take(2, NamedTaken::Mail(MAIL)),
    Step::Take(2, NamedTaken::Empty),
];

/// The message goes to the process that has the name at the turn, and not to the one that had it at the start.
#[test]
fn a_message_follows_its_name(rt: HostRuntime) -> Result<(), NoMemory> {
    let mut service = NameWorld::open(rt.alloc(), &SETTINGS)?;
    go(&rt, &mut service, &FOLLOWS);
    Ok(())
}

const IS_LOST: [Step; 12] = [
    Step::Register("undefined", 1, REFUSED),
    Step::Register("a", 1, Ok(())),
    Step::Whereis("a", Some(1)),
    Step::Register("b", 1, REFUSED),
    Step::Start(2, "a", 8, Kind::Bare, Ok(A)),
    Step::Exit(1, true),
    Step::Whereis("a", None),
    Step::Read(A, Some(2)),
    Step::Tick(2_000_000),
    Step::Turn(0, 1),
    Step::Take(1, NamedTaken::Exited),
    Step::Take(2, NamedTaken::Empty),
];

/// An exit takes the name of its process, and leaves the timer for the name armed.
#[test]
fn a_message_for_a_name_of_no_process_is_lost(rt: HostRuntime) -> Result<(), NoMemory> {
    let mut service = NameWorld::open(rt.alloc(), &SETTINGS)?;
    go(&rt, &mut service, &IS_LOST);
    Ok(())
}

/// A name of 255 bytes, and one of 256.
const LONGEST: &str =
    "aaaaaaaaaaaaaaaaaaaaaaaaaaaaaaaaaaaaaaaaaaaaaaaaaaaaaaaaaaaaaaaaaaaaaaaaaaaaaaaaaaaaaaaaaaaaaaaaaaaaaaaaaaaaaaaaaaaaaaaaaaaaaaaaaaaaaaaaaaaaaaaaaaaaaaaaaaaaaaaaaaaaaaaaaaaaaaaaaaaaaaaaaaaaaaaaaaaaaaaaaaaaaaaaaaaaaaaaaaaaaaaaaaaaaaaaaaaaaaaaaaaaaaaaaaaaaaa";

const LONGER: &str =
    "aaaaaaaaaaaaaaaaaaaaaaaaaaaaaaaaaaaaaaaaaaaaaaaaaaaaaaaaaaaaaaaaaaaaaaaaaaaaaaaaaaaaaaaaaaaaaaaaaaaaaaaaaaaaaaaaaaaaaaaaaaaaaaaaaaaaaaaaaaaaaaaaaaaaaaaaaaaaaaaaaaaaaaaaaaaaaaaaaaaaaaaaaaaaaaaaaaaaaaaaaaaaaaaaaaaaaaaaaaaaaaaaaaaaaaaaaaaaaaaaaaaaaaaaaaaaaaaa";

const HAVE_LIMITS: [Step; 4] = [
    Step::Register("", 1, REFUSED),
    Step::Register(LONGEST, 0, REFUSED),
    Step::Register(LONGEST, 1, Ok(())),
    Step::Register(LONGER, 2, REFUSED),
];

/// A name has 1 to 255 bytes, and isn't the registrar's.
#[test]
fn names_have_limits(rt: HostRuntime) -> Result<(), NoMemory> {
    let mut service = NameWorld::open(rt.alloc(), &SETTINGS)?;
    go(&rt, &mut service, &HAVE_LIMITS);
    Ok(())
}
