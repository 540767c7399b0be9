//! How early a timer may be due, and the rows of timers that others have cancelled.
use crate::shard::Shard;

impl Shard {
    ghost use Rattle.std.specs.Prelude.{◌≡◌};
    ghost use Rattle.ert_defs.specs.States.{state};
    ghost use Rattle.ert_effects.specs.Sleeping.{ProbesForNext};
    ghost use Rattle.ert_shard.specs.{Shards.{ShardBy, ShardSteps}, Sleeping.ShardDropsSettled};
    ghost use Rattle.ert_timers.specs.{NextDue.{NoneArmedBefore, IsNextHeld}, Sleeping.IsFoundNext};

    /// How early a timer of the shard's wheel may be due, in whole milliseconds since the start time, as `turn`
    /// answers; None where no timer is held.
    ///
    /// It tells an event loop how long it may sleep: no armed timer of the wheel is due before it. It is the deadline of
    /// a timer that is held, or the begin of a window of 512 milliseconds or a wider one, after the time of the last advance; two
    /// such begins are 512 milliseconds apart at least (`ert_wheel`, `Wheel::next_due`). The shard's scheduler probes the slot of
    /// the timer that tells it: where another has cancelled it its row goes, and the next one is asked for. After 1,024 such rows the answer may be too early for the sake of a timer
    /// that another cancelled; so it may where its time is before the first that the last advance left.
    pub fn next_due(&mut self) -> Option<u64>
        ensures call { ShardSteps self.old (ShardBy self.old (λ g. ProbesForNext g self.old.share.number)) self.new }
        ensures held { IsNextHeld self.new.wheel result }
        ensures armed { NoneArmedBefore (state self.new.settings self.new.history) self.new.share.number result }
        ensures found { IsFoundNext (state self.new.settings self.new.history) self.old.wheel self.new.wheel result }
        ensures time { self.new.wheel.passed ≡ self.old.wheel.passed }
    {
        self.wheel.next_due(&self.desk, &mut self.pass)
    }

    /// Drops the rows of all timers of the shard's wheel that others have cancelled, and answers how many they were. Their
    /// slots are held free where their rounds have uses left.
    ///
    /// The shard's scheduler probes each slot that has a row, once: each row that is left is of a timer that its probe found
    /// armed. No memory is taken.
    pub fn drop_settled(&mut self) -> u32
        ensures call { ShardDropsSettled self.old self.new result }
        ensures time { self.new.wheel.passed ≡ self.old.wheel.passed }
    {
        self.wheel.probe_rows(&self.desk, &mut self.pass)
    }
}
