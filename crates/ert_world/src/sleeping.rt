//! How early a timer may be due, and the rows of timers that seats have cancelled.
use crate::world::World;

impl World {
    ghost use Rattle.std.specs.Prelude.{◌≡◌, ◌<◌};
    ghost use Rattle.ert_defs.specs.States.{state};
    ghost use Rattle.ert_effects.specs.Sleeping.{ProbesForNext};
    ghost use Rattle.ert_timers.specs.NextDue.{NoneArmedBefore};
    ghost use Rattle.ert_world.specs.{Sleeping.{DropsSettledAt, HasSameTimeAt, IsFoundAt}, Stepping.Stays, Worlds.{Goes, By, IsNextHeldAt, IsNearestAt}};

    /// How early a timer of the scheduler's wheel may be due, in whole milliseconds since the start time, as
    /// `advance` answers; None where no timer is held.
    ///
    /// It tells an event loop how long it may sleep (as `uv_backend_timeout` of libuv): no armed timer is due
    /// before it. It is the deadline of a timer, or the begin of a window of 512 milliseconds or a wider one, after the time of
    /// the last advance; two such begins are 512 milliseconds apart at least (`ert_wheel`, `Wheel::next_due`). The scheduler
    /// probes the slot of the timer that tells it: where a seat has cancelled it its row goes, and the next one is asked for. After 1,024 such rows the answer may be too early for the sake of
    /// a timer that a seat cancelled; so it may where its time is before the first that the last advance left.
    pub fn next_due(&mut self, sched: u32) -> Option<u64>
        requires { sched < self.old.settings.schedulers }
        ensures call { Goes self.old (By self.old (λ g. ProbesForNext g sched)) self.new }
        ensures stays { Stays self.old self.new }
        ensures held { IsNextHeldAt self.new sched result }
        ensures armed { NoneArmedBefore (state self.new.settings self.new.history) sched result }
        ensures nearest { IsNearestAt self.new sched result }
        ensures found { IsFoundAt self.old self.new sched result }
        ensures time { HasSameTimeAt self.old self.new sched }
    {
        self.wheels[sched as usize].next_due(&self.desk, &mut self.pass)
    }

    /// Drops the rows of all timers of the scheduler's wheel that seats have cancelled, and answers how many they were. Their
    /// slots are held free where their rounds have uses left.
    ///
    /// The scheduler probes each slot that has a row, once: each row that is left is of a timer that its probe found armed.
    /// No memory is taken.
    pub fn drop_settled(&mut self, sched: u32) -> u32
        requires { sched < self.old.settings.schedulers }
        ensures call { DropsSettledAt self.old self.new sched result }
        ensures stays { Stays self.old self.new }
        ensures time { HasSameTimeAt self.old self.new sched }
    {
        self.wheels[sched as usize].probe_rows(&self.desk, &mut self.pass)
    }
}
