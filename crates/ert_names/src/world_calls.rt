//! The calls of the world that stay as they are, but that no caller names the registrar.
use crate::world::NameWorld;
use ert_clock::{ClockErr, Moved};
use ert_defs::{Reading, Start, TimerRef};
use ert_mail::Taken;
use ert_timers::StartErr;

impl NameWorld {
    ghost use Rattle.std.specs.Prelude.{◌≡◌, ◌≢◌, ◌<◌, Err};
    ghost use Rattle.ert_effects.specs.{Chains.Exits, ClockCalls.Ticks, MailCalls.Takes, TimerCalls.{Reads, Cancels, Starts}, declared.answers.StartErr.TheVariants.{Full, NoMemory}};
    ghost use Rattle.ert_clock.specs.Ticks.{act_of, Gives};
    ghost use Rattle.ert_defs.specs.declared.entry.Actor.TheVariants.{Caller};
    ghost use Rattle.ert_names.specs.{Calls.{GoesAlone, GoesAloneOnClock, ExitDropsName}, Names.Unnamed};
    ghost use Rattle.ert_world.specs.{Frees.IsUsedUpAt, Worlds.By};

    /// Takes one reading of the OS clocks, as `World::tick`.
    pub fn tick(&mut self, reading: Reading, force: bool) -> Result<Moved, ClockErr>
        ensures gives { Gives self.old.world.clock reading (act_of force) result self.new.world.clock }
        ensures call { GoesAloneOnClock self.old (By self.old.world (λ g. Ticks g 0 reading force result)) self.new }
    {
        self.world.tick(reading, force)
    }

    /// Starts a timer for a process, as `World::start`.
    pub fn start(&mut self, wheel: u32, start: &Start) -> Result<TimerRef, StartErr>
        requires wheel { wheel < self.old.world.settings.schedulers }
        requires dest { start.now.dest < self.old.world.settings.processes }
        requires not_registrar { start.now.dest ≢ 0 }
        ensures call { GoesAlone self.old (By self.old.world (λ g. Starts g 0 wheel start.now result)) self.new }
        ensures memory { result ≢ Err NoMemory }
        ensures full { result ≡ Err Full → IsUsedUpAt self.old.world self.new.world wheel }
    {
        self.world.start(wheel, start)
    }

    /// Cancels a timer, for a name or not, and answers how many milliseconds were left, as
    /// `World::cancel_timer`.
    pub fn cancel_timer(&mut self, timer: TimerRef) -> Option<u64>
        ensures call { GoesAlone self.old (By self.old.world (λ g. Cancels g (Caller 0) timer result)) self.new }
    {
        self.world.cancel_timer(timer)
    }

    /// How many milliseconds are left of a timer, for a name or not, as `World::read_timer`.
    pub fn read_timer(&mut self, timer: TimerRef) -> Option<u64>
        ensures call { GoesAlone self.old (By self.old.world (λ g. Reads g (Caller 0) timer result)) self.new }
    {
        self.world.read_timer(timer)
    }

    /// Takes the first message of a process, as `World::take`. Named mail isn't among these.
    pub fn take(&mut self, process: u32) -> Taken
        requires in_range { process < self.old.world.settings.processes }
        requires not_registrar { process ≢ 0 }
        ensures call { GoesAlone self.old (By self.old.world (λ g. Takes g 0 process result)) self.new }
    {
        self.world.take(process)
    }

    /// Lets a process exit, as `World::exit`. Where it hadn't exited before, its name goes too, so that it has
    /// none after the call.
    pub fn exit(&mut self, process: u32) -> bool
        requires in_range { process < self.old.world.settings.processes }
        requires not_registrar { process ≢ 0 }
        ensures call { ExitDropsName self.old process result (λ way. Exits self.old.world.settings way 0 process result) self.new }
        ensures unnamed { Unnamed self.new.names process }
    {
        if !self.world.exit(process) {
            return false;
        }
        self.registry.remove_process(process);
        true
    }
}
