//! The words that are left on a desk. What comes of timers and of exits, and the order in which timers expire, is shown by
//! `examples/ertime`; references and slots by `examples/c/tests`.
use crate::tests::compare::same;
use crate::tests::world_calls::{is_alone, is_process, is_scheduler};
use ert_defs::{Kind, Mode, NoMemory, Reading, Settings, Start, TimerRef, When};
use ert_effects::StartErr;
use ert_table::Words;
use ert_world::World;
use std::alloc::Global;
use std::process::Abort;
use std::sync::Arc;

/// One scheduler of two slots, and two processes, by OS system time alone.
const SETTINGS: Settings = Settings {
    mode: Mode::Single,
    correction: false,
    start: 0,
    schedulers: 1,
    processes: 2,
    slots: 2,
    looks: 64,
    callers: 1,
    first: Reading { mono: 0, sys: 0 },
};

const START: Start = Start {
    when: When::After(5),
    dest: 1,
    msg: 7,
    kind: Kind::Wrapped,
};

const FIRST: TimerRef = TimerRef {
    wheel: 0,
    slot: 0,
    generation: 1,
};

/// Starts a timer.
fn start(rt: &impl Abort, world: &mut World, start: &Start) -> Result<TimerRef, StartErr> {
    is_scheduler(rt, world, 0);
    is_process(rt, world, start.dest);
    world.start(0, start)
}

/// A timer is started and cancelled, and its process exits.
fn use_world(rt: &impl Abort, world: &mut World) {
    same(rt, 0, &start(rt, world, &START), &Ok(FIRST));
    same(rt, 1, &world.cancel_timer(FIRST), &Some(5));
    is_process(rt, world, 1);
    same(rt, 2, &world.mark_exit(1), &true);
}

/// Ends a world, and gives the words of its desk.
fn close(rt: &impl Abort, alloc: Global, world: World) -> Result<Words, NoMemory> {
    is_alone(rt, &world);
    let (desk, pass) = world.into_desk();
    let Ok(desk) = Arc::try_unwrap(desk) else {
        panic!(rt; "the desk is shared");
    };
    desk.close(alloc, pass)
}

/// The word of a slot has the status, the deadline and the generation of its last timer.
#[test]
fn words_are_left(rt: HostRuntime) -> Result<(), NoMemory> {
    assert!(rt; SETTINGS.check().is_ok());
    let mut world = World::open(rt.alloc(), &SETTINGS)?;
    use_world(&rt, &mut world);
    let words = close(&rt, rt.alloc(), world)?;
    same(
        &rt,
        3,
        &(words.time, words.offset),
        &(0, 9_223_372_036_854_775_808),
    );
    same(
        &rt,
        4,
        &words.timers.as_slice(),
        &[4 + 5 * 8 + (1 << 46), 0].as_slice(),
    );
    same(&rt, 5, &words.processes.as_slice(), &[0, 1].as_slice());
    Ok(())
}
