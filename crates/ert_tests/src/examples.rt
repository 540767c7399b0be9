//! The examples of the documentation: `.ci/check_examples` looks that each stands here word for word.
ghost use Rattle.std.specs.Prelude.{◌<◌};

use crate::tests::seats::is_process;
use crate::tests::services::open_and_close;
use ert_defs::{Kind, Mail, Mode, NoMemory, Reading, Settings, Start, When};
use ert_effects::{StartErr, Taken};
use ert_locks::DeskName;
use ert_service::CallerSession;
use ert_unique::{Spent, Uniques};
use ert_wheel::{HeldRow, Key, Row, Wheel};
use ert_world::World;
use std::alloc::Global;
use std::process::Abort;
use std::sync::Wait;
use std::test::Fail;

pub(crate) const SETTINGS: Settings = Settings {
    mode: Mode::No,
    correction: false,
    start: 0,
    schedulers: 1,
    processes: 1,
    slots: 64,
    looks: 64,
    callers: 1,
    first: Reading { mono: 0, sys: 0 },
};

fn first_message(rt: &impl Abort, alloc: Global) -> Result<Taken, NoMemory> {
    assert!(rt; SETTINGS.check().is_ok());
    let mut world = World::open(alloc, &SETTINGS)?;
    assert!(rt; world.settings().schedulers == 1 && world.settings().processes == 1);
    let start = Start {
        when: When::After(50),
        dest: 0,
        msg: 7,
        kind: Kind::Wrapped,
    };
    let timer = world.start(0, &start);
    let reading = Reading {
        mono: 50_000_000,
        sys: 50_000_000,
    };
    let moved = world.tick(reading, false);
    world.turn(0)?;
    let message = world.take(0);
    assert!(rt; timer.is_ok() && moved.is_ok());
    Ok(message)
}

#[test]
fn a_timer_sends_its_message(rt: HostRuntime) -> Result<(), NoMemory> {
    let message = first_message(&rt, rt.alloc())?;
    assert!(rt; matches!(message, Taken::Mail(Mail::Timeout { msg: 7, .. })));
    Ok(())
}

/// A bare message for process 0, 50 milliseconds from the call.
const START: Start = Start {
    when: When::After(50),
    dest: 0,
    msg: 7,
    kind: Kind::Bare,
};

fn start_and_cancel<L: DeskName, R: Wait>(
    session: &mut CallerSession<L, R>,
    start: &Start,
) -> Result<Option<u64>, StartErr>
    requires wheel { 0 < L.settings.schedulers }
    requires dest { start.now.dest < L.settings.processes }
{
    let timer = session.start(0, start)?;
    Ok(session.cancel_timer(timer))
}

/// A caller starts a timer of scheduler 0 for process 0, and cancels it.
pub(crate) fn first_timer<L: DeskName, R: Wait + Abort>(
    session: &mut CallerSession<L, R>,
) -> Option<u64> {
    let rt = session.rt;
    is_process(rt, session.service, START.dest);
    assert!(rt; session.service.settings().schedulers > 0);
    start_and_cancel(session, &START).unwrap_or(None)
}

fn start_and_hand_over<L: DeskName, R: Wait>(
    session: &mut CallerSession<L, R>,
    other: &mut CallerSession<L, R>,
    start: &Start,
) -> Result<Option<u64>, StartErr>
    requires wheel { 0 < L.settings.schedulers }
    requires dest { start.now.dest < L.settings.processes }
{
    let timer = session.start(0, start)?;
    let note = session.note();
    other.learn(note);
    Ok(other.cancel_timer(timer))
}

/// A caller starts a timer, and another one, which gets its name with a note, cancels it.
pub(crate) fn handed_timer<L: DeskName, R: Wait + Abort>(
    session: &mut CallerSession<L, R>,
    other: &mut CallerSession<L, R>,
) -> Option<u64> {
    let rt = session.rt;
    is_process(rt, session.service, START.dest);
    assert!(rt; session.service.settings().schedulers > 0);
    start_and_hand_over(session, other, &START).unwrap_or(None)
}

#[test]
fn a_seat_cancels_what_another_started(rt: HostRuntime) -> Result<(), NoMemory> {
    let mut settings = SETTINGS;
    settings.callers = 2;
    assert!(rt; open_and_close(&rt, rt.alloc(), &settings)? == Some(50));
    Ok(())
}

#[test]
fn a_seat_starts_and_cancels(rt: HostRuntime) -> Result<(), NoMemory> {
    assert!(rt; open_and_close(&rt, rt.alloc(), &SETTINGS)? == Some(50));
    Ok(())
}

/// The numbers that one pass draws: two monotonic ones, and a plain one.
type Drawn = [Result<u64, Spent>; 3];

fn draw(rt: &impl Abort, alloc: Global) -> Result<Drawn, NoMemory> {
    let (uniques, mut passes) = Uniques::open(alloc, 1)?;
    let mut pass = passes.pop().expect(rt, "a pass for each thread");
    let first = uniques.monotonic(&mut pass);
    let second = uniques.monotonic(&mut pass);
    let plain = pass.plain();
    Ok([first, second, plain])
}

#[test]
fn a_pass_draws(rt: HostRuntime) -> Result<(), NoMemory> {
    assert!(rt; draw(&rt, rt.alloc())? == [Ok(1), Ok(2), Ok(1)]);
    Ok(())
}

/// The rows that are due at 20 milliseconds.
fn due_rows(alloc: Global) -> Result<Vec<HeldRow>, Fail> {
    let mut wheel = Wheel::new(alloc, 64, 1)?;
    let mut due = Vec::with_capacity(alloc, 64)?;
    wheel.write_up_to(
        4,
        Key {
            deadline: 0,
            order: 0,
        },
    );
    wheel.insert(
        Row {
            deadline: 20,
            order: 0,
            slot: 3,
        },
        Key {
            deadline: 20,
            order: 0,
        },
    );
    wheel.advance(20, &mut due);
    Ok(due)
}

#[test]
fn a_row_is_due(rt: HostRuntime) -> Result<(), Fail> {
    let due = due_rows(rt.alloc())?;
    assert!(rt; due.len() == 1 && due[0].slot == 3);
    Ok(())
}
