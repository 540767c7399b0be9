//! What a program in C cannot do with a hub and its shards: shards that come back, and a world again. Each call
//! that it can make is tested by `examples/c/tests/shards.c`, and calls of many threads by `fuzz/shards.c`.
use crate::tests::compare::same;
use crate::tests::shard_calls::{both, cut, cut_both, join, open, start, tick, whole};
use ert_defs::NoMemory;
use ert_shard::{Hub, Shard, ShardErr, Turn};
use std::process::Abort;

/// What a turn at this time does that puts so many messages.
const fn turn(to: u64, put: u32) -> Turn {
    Turn {
        served: 0,
        to,
        expired: put,
        put,
        dropped: 0,
    }
}

/// Scheduler 1 gets processes 2 and 3, and scheduler 0 the others.
fn are_cut(rt: &impl Abort, low: &Shard, high: &Shard) {
    same(rt, 0, &(low.number(), low.from(), low.to()), &(0, 0, 2));
    same(rt, 1, &(high.number(), high.from(), high.to()), &(1, 2, 4));
    same(rt, 2, &high.processes(), &4);
}

/// A wheel that has had timers isn't cut for fewer processes than it had.
fn is_not_cut(rt: &impl Abort, hub: &mut Hub) {
    assert!(rt; hub.schedulers_left() > 0 && hub.processes_left() >= 1);
    assert!(rt; matches!(hub.shard(1), Err(ShardErr::Used)));
}

/// The shard that was cut last comes back first, and then the other is next.
#[test]
fn shards_come_back(rt: HostRuntime) -> Result<(), NoMemory> {
    let mut hub = open(&rt, rt.alloc())?;
    let (mut low, high) = cut_both(&rt, &mut hub);
    are_cut(&rt, &low, &high);
    let _timer = start(&rt, &mut low, 1, 5);
    same(&rt, 0, &hub.is_next(&high), &false);
    join(&rt, &mut hub, low);
    is_not_cut(&rt, &mut hub);
    same(&rt, 1, &hub.is_next(&high), &true);
    Ok(())
}

/// Shards come back in any order.
#[test]
fn shards_come_back_in_any_order(rt: HostRuntime) -> Result<(), NoMemory> {
    let mut hub = open(&rt, rt.alloc())?;
    let (low, high) = cut_both(&rt, &mut hub);
    let mut back = both(rt.alloc(), &hub, high, low)?;
    hub.join_all(&mut back);
    same(&rt, 0, &(back.len(), hub.schedulers_left()), &(0, 2));
    same(&rt, 1, &whole(&rt, hub).seats(), &0);
    Ok(())
}

/// A wheel that came back is cut again for the processes that it had, and its timer expires there.
#[test]
fn a_wheel_is_cut_again(rt: HostRuntime) -> Result<(), NoMemory> {
    let mut hub = open(&rt, rt.alloc())?;
    let mut high = cut(&rt, &mut hub, 2);
    let _timer = start(&rt, &mut high, 3, 5);
    join(&rt, &mut hub, high);
    let mut high = cut(&rt, &mut hub, 2);
    tick(&rt, &mut hub, 5);
    same(&rt, 0, &hub.published(), &5_000_000);
    same(&rt, 1, &high.turn(), &Ok(turn(5, 1)));
    Ok(())
}
