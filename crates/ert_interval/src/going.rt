//! How one interval goes on in a turn, and how it is stopped.
ghost use Rattle.std.specs.Prelude.{◌≡◌, ◌≢◌, ◌<◌, ◌≤◌, Some, false, IsTrue, ◌↔◌, ◌+◌, not};
ghost use Rattle.ert_defs.specs.{Legal.Legal, States.state, declared.entry.Actor.TheVariants.Caller, declared.timer.Status.TheVariants.Armed};
ghost use Rattle.ert_interval.specs.{Intervals.{IsOpen, IsIntervalOf}, Calls.{Still, PassedBy, StopsOne, IsNewOrSame}, Going.{GoesOn, ReadsLast, StartsNext}, Spared.Spares};
ghost use Rattle.ert_effects.specs.WheelCalls.{TellsAlive};
ghost use Rattle.ert_world.specs.Worlds.{Goes, By};

use crate::interval::{Interval, IntervalState, next_deadline, start_for};
use ert_defs::NoMemory;
use ert_world::World;

/// Goes on with an interval that is Running or Waiting, and tells whether its next timer was started.
///
/// If memory runs out, the interval is as before.
pub(crate) fn go_on(world: &mut World, interval: &mut Interval) -> Result<bool, NoMemory>
    requires legal { Legal world.old.settings world.old.history }
    requires lone { world.old.next ≡ 1 }
    requires kept { IsIntervalOf world.old.settings world.old.history interval.old }
    requires is_open { IsOpen interval.old.state }
    ensures still { Still world.old world.new }
    ensures legal { Legal world.new.settings world.new.history }
    ensures kept { IsIntervalOf world.new.settings world.new.history interval.new }
    ensures timer { IsNewOrSame (state world.old.settings world.old.history) interval.old interval.new }
    ensures passed { PassedBy result world.new interval.old interval.new }
    ensures goes { GoesOn result world.old interval.old world.new interval.new }
{
    if is_armed(world, interval) {
        return Ok(false);
    }
    let Some(deadline) = next_deadline(interval.deadline, interval.period) else {
        interval.state = IntervalState::Ended;
        return Ok(false);
    };
    if !lives(world, interval.dest) {
        interval.state = IntervalState::Ended;
        return Ok(false);
    }
    start_next(world, interval, deadline)
}

/// Whether the last timer of an interval is armed.
fn is_armed(world: &mut World, interval: &Interval) -> bool
    requires legal { Legal world.old.settings world.old.history }
    requires lone { world.old.next ≡ 1 }
    requires kept { IsIntervalOf world.old.settings world.old.history interval.now }
    ensures still { Still world.old world.new }
    ensures legal { Legal world.new.settings world.new.history }
    ensures reads { ReadsLast interval.now result world.old world.new }
    ensures value { IsTrue result ↔ ((state world.new.settings world.new.history).status interval.now.last ≡ Some Armed) }
{
    let left = world.read_timer(interval.last);
    left.is_some()
}

/// Whether a process hasn't exited.
fn lives(world: &mut World, process: u32) -> bool
    requires legal { Legal world.old.settings world.old.history }
    requires lone { world.old.next ≡ 1 }
    requires process { process < world.old.settings.processes }
    ensures still { Still world.old world.new }
    ensures legal { Legal world.new.settings world.new.history }
    ensures call { Goes world.old (By world.old (λ g. TellsAlive g (Caller 0) process result)) world.new }
    ensures value { (state world.new.settings world.new.history).exited process ≡ not result }
{
    world.is_alive(process)
}

/// Starts the next timer of an interval whose last isn't armed. Where no slot of the wheel is free the
/// interval waits.
fn start_next(world: &mut World, interval: &mut Interval, deadline: u64) -> Result<bool, NoMemory>
    requires legal { Legal world.old.settings world.old.history }
    requires lone { world.old.next ≡ 1 }
    requires kept { IsIntervalOf world.old.settings world.old.history interval.old }
    requires is_open { IsOpen interval.old.state }
    requires unarmed { (state world.old.settings world.old.history).status interval.old.last ≢ Some Armed }
    requires lives { (state world.old.settings world.old.history).exited interval.old.dest ≡ false }
    requires next { deadline ≡ interval.old.deadline + interval.old.period }
    requires high { deadline ≤ 8796093022207 }
    ensures still { Still world.old world.new }
    ensures legal { Legal world.new.settings world.new.history }
    ensures kept { IsIntervalOf world.new.settings world.new.history interval.new }
    ensures timer { IsNewOrSame (state world.old.settings world.old.history) interval.old interval.new }
    ensures passed { PassedBy result world.new interval.old interval.new }
    ensures starts { StartsNext result world.old interval.old world.new interval.new }
{
    interval.firings.reserve(1)?;
    let start = start_for(deadline, world.settings(), interval.dest, interval.msg);
    let started = world.start(interval.wheel, &start);
    let Ok(timer) = started else {
        interval.state = IntervalState::Waiting;
        return Ok(false);
    };
    interval.firings.push_reserved(timer);
    interval.last = timer;
    interval.deadline = deadline;
    interval.state = IntervalState::Running;
    Ok(true)
}

/// Stops an interval that is Running or Waiting, and answers how many milliseconds were left of its last
/// timer.
pub(crate) fn stop(world: &mut World, interval: &mut Interval) -> Option<u64>
    requires legal { Legal world.old.settings world.old.history }
    requires lone { world.old.next ≡ 1 }
    requires kept { IsIntervalOf world.old.settings world.old.history interval.old }
    ensures legal { Legal world.new.settings world.new.history }
    ensures kept { IsIntervalOf world.new.settings world.new.history interval.new }
    ensures stops { StopsOne world.old interval.old result world.new interval.new }
    ensures last { interval.new.last ≡ interval.old.last }
    ensures spared { Spares interval.old.last world.old world.new }
{
    if !interval.state.is_open() {
        return None;
    }
    let left = world.cancel_timer(interval.last);
    interval.state = IntervalState::Stopped;
    left
}
