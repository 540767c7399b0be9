//! A world with intervals: how they are made, stopped and seen.
use crate::going::stop;
use crate::interval::{Interval, IntervalState, start_at};
use ert_clock::{ClockErr, Moved};
use ert_defs::milliseconds::deadline_at;
use ert_defs::{NoMemory, Reading, Settings, TimerRef};
use ert_mail::Taken;
use ert_world::World;
use std::alloc::Global;

/// Why an interval is refused.
#[derive(Clone, Copy, Debug, PartialEq, Eq)]
pub enum IntervalErr {
    /// The period is 0, or the first deadline is outside its limits: 0 to 8796093022207 milliseconds after
    /// the start time.
    BadArg,
    /// Each slot of the wheel that was looked at is taken or rests (`Settings::looks`), or the wheel has had 2^53
    /// timers.
    Full,
    NoMemory,
}

/// The clock and timer service for one thread, with intervals.
#[derive(Drop)]
pub struct IntervalWorld {
    pub(crate) alloc: Global,
    pub(crate) world: World,
    pub(crate) intervals: Vec<Interval>,
}

impl IntervalWorld {
    ghost use Rattle.std.specs.Prelude.{◌≡◌, ◌<◌, [], IfOk, length, Err};
    ghost use Rattle.ert_effects.specs.{Chains.Exits, ClockCalls.Ticks, MailCalls.Takes};
    ghost use Rattle.ert_defs.specs.Settings.{IsChecked};
    ghost use Rattle.ert_interval.specs.{Intervals.AreIntervalsKept, Calls.{FiringsAre, Every, Stops, StateIs}};
    ghost use Rattle.ert_world.specs.{Frees.IsUsedUpAt, Openings.IsOpened, Worlds.{Goes, GoesOnClock, By}};

    /// Opens a service, with no interval.
    pub fn open(alloc: Global, settings: &Settings) -> Result<IntervalWorld, NoMemory>
        requires { IsChecked settings.now }
        ensures world { IfOk result (λ w. IsOpened settings.now w.world) }
        ensures none { IfOk result (λ w. w.intervals.items ≡ []) }
        ensures kept { IfOk result (λ w. AreIntervalsKept w.world w.intervals.items) }
    {
        let world = World::open(alloc, settings)?;
        Ok(IntervalWorld {
            alloc,
            world,
            intervals: Vec::new(alloc),
        })
    }

    /// The service.
    pub fn world(&self) -> &World
        ensures { result.now ≡ self.now.world }
    {
        &self.world
    }

    /// Makes an interval, and gives its number, from 0.
    pub fn every(
        &mut self,
        wheel: u32,
        first: i64,
        period: u64,
        dest: u32,
        msg: u64,
    ) -> Result<u32, IntervalErr>
        requires kept { AreIntervalsKept self.old.world self.old.intervals.items }
        requires wheel { wheel < self.old.world.settings.schedulers }
        requires dest { dest < self.old.world.settings.processes }
        requires few { length self.old.intervals.items < 4294967295 }
        ensures kept { AreIntervalsKept self.new.world self.new.intervals.items }
        ensures full { result ≡ Err IntervalErr.Full → IsUsedUpAt self.old.world self.new.world wheel }
        ensures made { Every wheel first period dest msg self.old.world self.old.intervals.items result self.new.world self.new.intervals.items }
    {
        let settings = *self.world.settings();
        let Some(deadline) = deadline_at(&settings, first) else {
            return Err(IntervalErr::BadArg);
        };
        if period == 0 {
            return Err(IntervalErr::BadArg);
        }
        let mut firings = Vec::new(self.alloc);
        if firings.reserve(1).is_err() || self.intervals.reserve(1).is_err() {
            return Err(IntervalErr::NoMemory);
        }
        let start = start_at(first, dest, msg);
        let started = self.world.start(wheel, &start);
        let Ok(last) = started else {
            return Err(IntervalErr::Full);
        };
        firings.push_reserved(last);
        let number = self.intervals.len() as u32;
        self.intervals.push_reserved(Interval {
            wheel,
            first,
            period,
            dest,
            msg,
            state: IntervalState::Running,
            last,
            deadline,
            firings,
        });
        Ok(number)
    }

    /// The state of an interval; None where no such interval was made.
    pub fn state(&self, interval: u32) -> Option<IntervalState>
        ensures { StateIs self.now.intervals.items interval result }
    {
        Some(self.intervals.get(interval as usize)?.state)
    }

    /// The timers of an interval, in order; none where no such interval was made.
    pub fn firings(&self, interval: u32) -> &[TimerRef]
        ensures { FiringsAre self.now.intervals.items interval result.now }
    {
        match self.intervals.get(interval as usize) {
            Some(interval) => &interval.firings,
            None => &[],
        }
    }

    /// Stops an interval.
    pub fn stop(&mut self, interval: u32) -> Option<u64>
        requires kept { AreIntervalsKept self.old.world self.old.intervals.items }
        ensures kept { AreIntervalsKept self.new.world self.new.intervals.items }
        ensures stops { Stops interval self.old.world self.old.intervals.items result self.new.world self.new.intervals.items }
    {
        if interval as usize >= self.intervals.len() {
            return None;
        }
        stop(&mut self.world, &mut self.intervals[interval as usize])
    }

    /// Takes one reading of the OS clocks (`World::tick`).
    pub fn tick(&mut self, reading: Reading, force: bool) -> Result<Moved, ClockErr>
        requires kept { AreIntervalsKept self.old.world self.old.intervals.items }
        ensures call { GoesOnClock self.old.world (By self.old.world (λ g. Ticks g 0 reading force result)) self.new.world }
        ensures kept { AreIntervalsKept self.new.world self.new.intervals.items }
        ensures same { self.new.intervals.items ≡ self.old.intervals.items }
    {
        self.world.tick(reading, force)
    }

    /// Lets a process exit (`World::exit`). The next turn ends the intervals that go to it.
    pub fn exit(&mut self, process: u32) -> bool
        requires kept { AreIntervalsKept self.old.world self.old.intervals.items }
        requires process { process < self.old.world.settings.processes }
        ensures call { Goes self.old.world (λ way. Exits self.old.world.settings way 0 process result) self.new.world }
        ensures kept { AreIntervalsKept self.new.world self.new.intervals.items }
        ensures same { self.new.intervals.items ≡ self.old.intervals.items }
    {
        self.world.exit(process)
    }

    /// Takes the first message of a process (`World::take`).
    pub fn take(&mut self, process: u32) -> Taken
        requires kept { AreIntervalsKept self.old.world self.old.intervals.items }
        requires process { process < self.old.world.settings.processes }
        ensures call { Goes self.old.world (By self.old.world (λ g. Takes g 0 process result)) self.new.world }
        ensures kept { AreIntervalsKept self.new.world self.new.intervals.items }
        ensures same { self.new.intervals.items ≡ self.old.intervals.items }
    {
        self.world.take(process)
    }
}
