use ert_clock::{ClockErr, Moved};
use ert_defs::{NoMemory, OffsetState, Reading, Request, Settings, Start, TimerRef};
use ert_effects::{MonitorErr, StartErr, Taken};
use ert_locks::DeskName;
use ert_script::Doer;
use ert_service::CallerSession;
use std::sync::Wait;

/// A caller's session, as one that does ops.
#[derive(Drop)]
pub(crate) struct SessionDoer<'a, L: DeskName, R: Wait> {
    pub(crate) session: CallerSession<'a, L, R>,
}

impl<'a, L: DeskName, R: Wait> Doer for SessionDoer<'a, L, R> {
    ghost use Rattle.std.specs.Prelude.{◌≡◌, refl};
    ghost use Rattle.ert_defs.specs.declared.entry.Actor.TheVariants.{Caller};
    ghost use Rattle.ert_effects.specs.Ways.{beside};
    ghost use Rattle.ert_table.specs.Desks.{front_of};

    ghost number = { λ d. d.session.seat.number };

    ghost settings = { λ d. L.settings };

    ghost may = { λ d. Unit {0} };

    ghost way = { λ d. beside L.settings (Caller d.session.seat.number) };

    ghost history = { λ d. front_of d.session.seat.pass };

    ghost stays = { λ old new. new.session.seat.number ≡ old.session.seat.number };

    fn settings(&self) -> &Settings {
        self.session.service.settings()
    }

    fn tick(&mut self, reading: Reading, force: bool) -> Result<Moved, ClockErr> {
        self.session.tick(reading, force)
    }

    fn finalize(&mut self, reading: Reading) -> Result<(OffsetState, Moved), ClockErr> {
        self.session.finalize(reading)
    }

    fn monotonic_time(&mut self) -> i64 {
        self.session.monotonic_time()
    }

    fn system_time(&mut self) -> i64 {
        self.session.system_time()
    }

    fn time_offset(&mut self) -> (i64, OffsetState) {
        self.session.time_offset()
    }

    fn start(&mut self, wheel: u32, start: &Start) -> Result<TimerRef, StartErr> {
        self.session.start(wheel, start)
    }

    fn cancel_timer(&mut self, timer: TimerRef) -> Option<u64> {
        self.session.cancel_timer(timer)
    }

    fn read_timer(&mut self, timer: TimerRef) -> Option<u64> {
        self.session.read_timer(timer)
    }

    fn ask(&mut self, request: Request) -> Result<(), NoMemory> {
        self.session.ask(request)
    }

    fn take(&mut self, process: u32) -> Taken {
        self.session.take(process)
    }

    fn exit(&mut self, process: u32) -> bool {
        self.session.exit(process)
    }

    fn is_alive(&mut self, process: u32) -> bool {
        self.session.is_alive(process)
    }

    fn monitor(&mut self, process: u32) -> Result<u32, MonitorErr> {
        self.session.monitor(process)
    }

    fn demonitor(&mut self, process: u32, monitor: u32) -> bool {
        self.session.demonitor(process, monitor)
    }

    fn notify(&mut self, process: u32) -> Result<u32, NoMemory> {
        self.session.notify(process)
    }

    ghost same = { λ d. refl };
}
