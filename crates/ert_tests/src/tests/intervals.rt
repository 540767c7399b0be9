//! An interval over timely and late turns, and one whose process exits.
ghost use Rattle.ert_interval.specs.Intervals.{AreIntervalsKept};

use crate::tests::compare::same;
use crate::tests::settings::SMALL;
use crate::tests::world_calls::{is_process, is_scheduler};
use ert_defs::{NoMemory, Reading, Settings};
use ert_interval::{IntervalErr, IntervalState, IntervalTurn, IntervalWorld};
use std::process::Abort;

/// One scheduler, one process and four slots, with no time correction.
const SETTINGS: Settings = Settings { slots: 4, ..SMALL };

/// A call, its arguments, and last its answer.
enum Step {
    /// The milliseconds that both OS clocks come to. It is accepted.
    Tick(i64),
    /// How many timers expired, and how many intervals started their next.
    Turn(u32, u32),
    /// How many timers there were.
    Firings(u32, usize),
    State(u32, Option<IntervalState>),
    Stop(u32, Option<u64>),
    Exit(u32, bool),
}

/// Makes each call in turn.
fn go(rt: &impl Abort, service: &mut IntervalWorld, steps: &[Step])
    requires { AreIntervalsKept service.old.world service.old.intervals.items }
{
    for (at, step) in steps.iter().enumerate() {
        go_on(rt, service, at, step);
    }
}

fn go_on(rt: &impl Abort, service: &mut IntervalWorld, at: usize, step: &Step)
    requires { AreIntervalsKept service.old.world service.old.intervals.items }
    ensures { AreIntervalsKept service.new.world service.new.intervals.items }
{
    match *step {
        Step::Tick(milliseconds) => {
            let time = milliseconds.wrapping_mul(1_000_000);
            let reading = Reading {
                mono: time,
                sys: time,
            };
            let moved = service.tick(reading, false);
            same(rt, at, &moved.is_ok(), &true);
        }
        Step::Turn(expired, armed) => {
            is_scheduler(rt, service.world(), 0);
            let turn = service.turn(0).map(counts);
            same(rt, at, &turn, &Ok((expired, armed)));
        }
        Step::Firings(interval, timers) => {
            same(rt, at, &service.firings(interval).len(), &timers);
        }
        Step::State(interval, state) => same(rt, at, &service.state(interval), &state),
        Step::Stop(interval, left) => same(rt, at, &service.stop(interval), &left),
        Step::Exit(process, exits) => {
            is_process(rt, service.world(), process);
            same(rt, at, &service.exit(process), &exits);
        }
    }
}

fn counts(turn: IntervalTurn) -> (u32, u32) {
    (turn.turned.expired, turn.armed)
}

const CATCHES_UP: [Step; 11] = [
    Step::Tick(10),
    Step::Turn(1, 1),
    Step::Tick(27),
    Step::Turn(1, 1),
    Step::Turn(1, 1),
    Step::Turn(1, 1),
    Step::Turn(0, 0),
    Step::Firings(0, 5),
    Step::State(0, Some(IntervalState::Running)),
    Step::Stop(0, Some(3)),
    Step::State(0, Some(IntervalState::Stopped)),
];

/// An interval fires at 10, 15, 20 and 25 ms. From 10 to 27 ms no turn is made, and three turns then catch up.
#[test]
fn catches_up(rt: HostRuntime) -> Result<(), NoMemory> {
    let mut service = IntervalWorld::open(rt.alloc(), &SETTINGS)?;
    assert!(rt; service.every(0, 10, 5, 0, 9) == Ok(0));
    go(&rt, &mut service, &CATCHES_UP);
    Ok(())
}

const ENDS: [Step; 4] = [
    Step::Exit(0, true),
    Step::Turn(0, 0),
    Step::State(0, Some(IntervalState::Ended)),
    Step::Stop(0, None),
];

/// An interval ends at the turn after its process has exited.
#[test]
fn ends_with_its_process(rt: HostRuntime) -> Result<(), NoMemory> {
    let mut service = IntervalWorld::open(rt.alloc(), &SETTINGS)?;
    assert!(rt; service.every(0, 10, 0, 0, 9) == Err(IntervalErr::BadArg));
    assert!(rt; service.every(0, 10, 5, 0, 9) == Ok(0));
    go(&rt, &mut service, &ENDS);
    Ok(())
}
