use crate::doer::Doer;
use ert_clock::{ClockErr, Moved};
use ert_defs::{NoMemory, OffsetState, Reading, Request, Settings, Start, TimerRef};
use ert_effects::{MonitorErr, StartErr, Taken};
use ert_world::World;

// A world that gave out no seat does ops as caller 0.
#[tactic(auto, using(crate::proofs::Alone::grows_alone, crate::proofs::Alone::stays_alone))]
impl Doer for World {
    ghost use Rattle.std.specs.Prelude.{◌≡◌, refl};
    ghost use Rattle.ert_effects.specs.Ways.{alone};
    ghost use Rattle.ert_script.specs.Scripts.{StaysAlone};

    ghost number = { λ w. 0 };

    ghost settings = { λ w. w.settings };

    ghost may = { λ w. w.next ≡ 1 };

    ghost way = { λ w. alone w.settings };

    ghost history = { λ w. w.history };

    ghost stays = { StaysAlone };

    fn settings(&self) -> &Settings {
        World::settings(self)
    }

    fn tick(&mut self, reading: Reading, force: bool) -> Result<Moved, ClockErr> {
        World::tick(self, reading, force)
    }

    fn finalize(&mut self, reading: Reading) -> Result<(OffsetState, Moved), ClockErr> {
        World::finalize(self, reading)
    }

    fn monotonic_time(&mut self) -> i64 {
        World::monotonic_time(self)
    }

    fn system_time(&mut self) -> i64 {
        World::system_time(self)
    }

    fn time_offset(&mut self) -> (i64, OffsetState) {
        World::time_offset(self)
    }

    fn start(&mut self, wheel: u32, start: &Start) -> Result<TimerRef, StartErr> {
        World::start(self, wheel, start)
    }

    fn cancel_timer(&mut self, timer: TimerRef) -> Option<u64> {
        World::cancel_timer(self, timer)
    }

    fn read_timer(&mut self, timer: TimerRef) -> Option<u64> {
        World::read_timer(self, timer)
    }

    fn ask(&mut self, request: Request) -> Result<(), NoMemory> {
        World::ask(self, request)
    }

    fn take(&mut self, process: u32) -> Taken {
        World::take(self, process)
    }

    fn exit(&mut self, process: u32) -> bool {
        World::exit(self, process)
    }

    fn is_alive(&mut self, process: u32) -> bool {
        World::is_alive(self, process)
    }

    fn monitor(&mut self, process: u32) -> Result<u32, MonitorErr> {
        World::monitor(self, process)
    }

    fn demonitor(&mut self, process: u32, monitor: u32) -> bool {
        World::demonitor(self, process, monitor)
    }

    fn notify(&mut self, process: u32) -> Result<u32, NoMemory> {
        World::notify(self, process)
    }

    ghost same = { λ w. record { settings = refl; next = refl } };
}
