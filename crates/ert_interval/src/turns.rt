//! The turn of a scheduler, after which the intervals of its wheel go on.
use crate::going::go_on;
use crate::intervals::IntervalWorld;
use ert_defs::NoMemory;
use ert_world::Turned;

/// What a turn did.
#[derive(Clone, Copy, Debug, PartialEq, Eq)]
pub struct IntervalTurn {
    /// What the world's turn did.
    pub turned: Turned,
    /// How many intervals started their next timer.
    pub armed: u32,
}

impl IntervalWorld {
    ghost use Rattle.std.specs.Prelude.{◌≡◌, ◌<◌, length};
    ghost use Rattle.ert_effects.specs.Chains.{Turns};
    ghost use Rattle.ert_interval.specs.{Calls.{Still, PassesBy, PassesOne, CountsTimers}, Going.{KeepsSeats, StepsAll, StepsOne}, Intervals.AreIntervalsKept, Turns.TurnsIntervals};
    ghost use Rattle.ert_world.specs.Worlds.{Goes};

    /// A turn of a scheduler (`World::turn`), and then one step of each interval of its wheel, in order of
    /// number.
    ///
    /// If memory runs out, what was done stays done: the interval in hand has read its last timer and looked
    /// at its destination, and has started none. A later turn goes on from there.
    pub fn turn(&mut self, sched: u32) -> Result<IntervalTurn, NoMemory>
        requires kept { AreIntervalsKept self.old.world self.old.intervals.items }
        requires sched { sched < self.old.world.settings.schedulers }
        ensures kept { AreIntervalsKept self.new.world self.new.intervals.items }
        ensures turns { TurnsIntervals sched result self.old.world self.old.intervals.items self.new.world self.new.intervals.items }
    {
        let turned = self.turn_world(sched)?;
        let armed = self.go_on_all(sched)?;
        Ok(IntervalTurn { turned, armed })
    }

    /// The world's turn.
    fn turn_world(&mut self, sched: u32) -> Result<Turned, NoMemory>
        requires kept { AreIntervalsKept self.old.world self.old.intervals.items }
        requires sched { sched < self.old.world.settings.schedulers }
        ensures turn { Goes self.old.world (λ way. Turns self.old.world.settings way sched result) self.new.world }
        ensures kept { AreIntervalsKept self.new.world self.new.intervals.items }
        ensures same { self.new.intervals.items ≡ self.old.intervals.items }
    {
        self.world.turn(sched)
    }

    /// Goes on with the intervals of a wheel, and answers how many started their next timer.
    fn go_on_all(&mut self, sched: u32) -> Result<u32, NoMemory>
        requires kept { AreIntervalsKept self.old.world self.old.intervals.items }
        ensures kept { AreIntervalsKept self.new.world self.new.intervals.items }
        ensures still { Still self.old.world self.new.world }
        ensures stays { KeepsSeats self.old.world self.new.world }
        ensures steps { StepsAll sched result self.old.world self.old.intervals.items self.new.world self.new.intervals.items }
        ensures passed { PassesBy result sched self.new.world self.old.intervals.items self.new.intervals.items }
    {
        let mut armed = 0;
        for number in 0..self.intervals.len() {
            if self.go_on_one(number, sched)? {
                armed += 1;
            }
        }
        Ok(armed)
    }

    /// Goes on with an interval where it is of a wheel and is Running or Waiting.
    fn go_on_one(&mut self, number: usize, sched: u32) -> Result<bool, NoMemory>
        requires kept { AreIntervalsKept self.old.world self.old.intervals.items }
        requires number { number < length self.old.intervals.items }
        ensures kept { AreIntervalsKept self.new.world self.new.intervals.items }
        ensures still { Still self.old.world self.new.world }
        ensures stays { KeepsSeats self.old.world self.new.world }
        ensures step { StepsOne result sched number self.old.world self.old.intervals.items self.new.world self.new.intervals.items }
        ensures count { CountsTimers result self.old.intervals.items self.new.intervals.items }
        ensures one { PassesOne result number sched self.new.world self.old.intervals.items self.new.intervals.items }
    {
        let interval = &mut self.intervals[number];
        if interval.wheel != sched || !interval.state.is_open() {
            return Ok(false);
        }
        go_on(&mut self.world, interval)
    }
}
