//! The calls of a hub and of a shard. What a caller has to know is looked up first.
ghost use Rattle.std.specs.Prelude.{IfOk};
ghost use Rattle.ert_shard.specs.{Shards.IsHome, Hubs.AreOurs};
ghost use Rattle.ert_tests.specs.Kept.{IsOfHub, IsSameShard, IsCut};

use ert_defs::{Kind, Mode, NoMemory, Reading, Settings, Start, TimerRef, When};
use ert_shard::{Hub, Shard};
use ert_world::World;
use std::alloc::{AllocError, Global};
use std::process::Abort;

/// Two schedulers and four processes, with no time correction, and a caller for one seat.
const SETTINGS: Settings = Settings {
    mode: Mode::No,
    correction: false,
    start: 0,
    schedulers: 2,
    processes: 4,
    slots: 64,
    looks: 64,
    callers: 4,
    first: Reading { mono: 0, sys: 0 },
};

/// All of a world that was just opened, which has a caller for each scheduler, and one more.
pub(crate) fn open(rt: &impl Abort, alloc: Global) -> Result<Hub, NoMemory> {
    assert!(rt; SETTINGS.check().is_ok());
    let world = World::open(alloc, &SETTINGS)?;
    assert!(rt; world.seats() == 0);
    assert!(rt; world.settings().schedulers < world.settings().callers);
    Ok(Hub::new(world))
}

/// The shard of the last scheduler that is left.
pub(crate) fn cut(rt: &impl Abort, hub: &mut Hub, processes: u32) -> Shard
    ensures { IsCut hub.old hub.new result }
{
    assert!(rt; hub.schedulers_left() > 0 && hub.processes_left() >= processes);
    hub.shard(processes).expect(rt, "a shard")
}

/// Both shards of a hub, with two processes each: the first and the last.
pub(crate) fn cut_both(rt: &impl Abort, hub: &mut Hub) -> (Shard, Shard)
    ensures first { IsOfHub hub.new result.0 }
    ensures last { IsOfHub hub.new result.1 }
{
    let last = cut(rt, hub, 2);
    let first = cut(rt, hub, 2);
    (first, last)
}

/// The world again.
pub(crate) fn whole(rt: &impl Abort, hub: Hub) -> World {
    let settings = *hub.settings();
    assert!(rt; hub.schedulers_left() == settings.schedulers);
    assert!(rt; hub.processes_left() == settings.processes && hub.seats() == 0);
    hub.into_world()
}

/// The next shard comes back.
pub(crate) fn join(rt: &impl Abort, hub: &mut Hub, shard: Shard)
    requires { IsOfHub hub.old shard }
{
    assert!(rt; hub.is_next(&shard));
    hub.join(shard);
}

/// Two shards of a hub, to come back.
pub(crate) fn both(
    alloc: Global,
    hub: &Hub,
    first: Shard,
    second: Shard,
) -> Result<Vec<Shard>, AllocError>
    requires first { IsOfHub hub.now first }
    requires second { IsOfHub hub.now second }
    ensures { IfOk result (λ shards. AreOurs hub.now shards.items) }
{
    Ok(vec![in alloc; first, second]?)
}

fn is_home(rt: &impl Abort, shard: &Shard, process: u32)
    ensures { IsHome shard.now.share process }
{
    assert!(rt; shard.from() <= process && process < shard.to());
}

/// A timer of so many milliseconds.
pub(crate) fn start(rt: &impl Abort, shard: &mut Shard, dest: u32, wait: i64) -> TimerRef
    ensures { IsSameShard shard.old shard.new }
{
    is_home(rt, shard, dest);
    let start = Start {
        when: When::After(wait),
        dest,
        msg: 7,
        kind: Kind::Wrapped,
    };
    shard.start(&start).expect(rt, "a timer")
}

/// A reading of both clocks, in milliseconds.
pub(crate) fn tick(rt: &impl Abort, hub: &mut Hub, milliseconds: u32) {
    let time = i64::from(milliseconds) * 1_000_000;
    let reading = Reading {
        mono: time,
        sys: time,
    };
    assert!(rt; hub.tick(reading, false).is_ok());
}
