use ert_clock::{ClockErr, Moved};
use ert_defs::{NoMemory, OffsetState, Reading, Request, Settings, Start, TimerRef};
use ert_effects::{MonitorErr, StartErr, Taken};

/// Who does ops: it makes the calls of one caller, on a world or on a service. Each call is that of `World`, with
/// its answer.
pub trait Doer {
    ghost use Rattle.std.specs.Prelude.{◌≡◌, ◌≢◌, ◌<◌, ℕ, List, [], ◌∷◌, Err};
    ghost use Rattle.ert_clock.specs.declared.clock.ClockErr.TheVariants.{BadReading};
    ghost use Rattle.ert_defs.specs.{Readings.IsValid, Settings.IsChecked, declared.entry.Actor.TheVariants.{Keeper, Wheel, Inbox, MailOf, Caller}, declared.entry.Entry.Entry, declared.settings.Settings.Settings};
    ghost use Rattle.ert_effects.specs.{Chains.Exits, ClockCalls.{Ticks, Finalizes, TellsTime, TellsOffset, TellsSystemTime}, MailCalls.{Takes, Monitors, Demonitors, Notifies}, RequestCalls.{inbox_for, Asks}, TimerCalls.{Reads, Cancels}};
    ghost use Rattle.ert_effects.specs.{TimerCalls.Starts, Ways.{Way, Grows}, WheelCalls.TellsAlive, declared.answers.StartErr.TheVariants.NoMemory as OutOfMemory};

    // The number of the caller.
    ghost number: { Self → ℕ };

    // The settings of the world or the service.
    ghost settings: { Self → Settings };

    // It may make a call.
    ghost may: { Self → Type 0 };

    // The way in which its calls are made.
    ghost way: { Self → Way };

    // The history that it knows.
    ghost history: { Self → List Entry };

    // What every call keeps.
    ghost stays: { Self → Self → Type 0 };

    fn settings(&self) -> &Settings
        ensures value { result.now ≡ settings self.now }
        ensures checked { IsChecked result.now };

    fn tick(&mut self, reading: Reading, force: bool) -> Result<Moved, ClockErr>
        requires may { may self.old }
        requires valid { IsValid reading }
        ensures call { Grows (way self.old (Keeper ∷ []) (Ticks (settings self.old) (number self.old) reading force result)) (history self.old) (history self.new) }
        ensures stays { stays self.old self.new }
        ensures reads { result ≢ Err BadReading };

    fn finalize(&mut self, reading: Reading) -> Result<(OffsetState, Moved), ClockErr>
        requires may { may self.old }
        requires valid { IsValid reading }
        ensures call { Grows (way self.old (Keeper ∷ []) (Finalizes (settings self.old) (number self.old) reading result)) (history self.old) (history self.new) }
        ensures stays { stays self.old self.new }
        ensures reads { result ≢ Err BadReading };

    fn monotonic_time(&mut self) -> i64
        requires { may self.old }
        ensures call { Grows (way self.old [] (TellsTime (settings self.old) (Caller (number self.old)) result)) (history self.old) (history self.new) }
        ensures stays { stays self.old self.new };

    fn system_time(&mut self) -> i64
        requires { may self.old }
        ensures call { Grows (way self.old [] (TellsSystemTime (settings self.old) (Caller (number self.old)) result)) (history self.old) (history self.new) }
        ensures stays { stays self.old self.new };

    fn time_offset(&mut self) -> (i64, OffsetState)
        requires { may self.old }
        ensures call { Grows (way self.old [] (TellsOffset (settings self.old) (Caller (number self.old)) result)) (history self.old) (history self.new) }
        ensures stays { stays self.old self.new }
        ensures settings { settings self.new ≡ settings self.old };

    fn start(&mut self, wheel: u32, start: &Start) -> Result<TimerRef, StartErr>
        requires may { may self.old }
        requires wheel { wheel < (settings self.old).schedulers }
        requires dest { start.now.dest < (settings self.old).processes }
        ensures call { Grows (way self.old (Wheel wheel ∷ []) (Starts (settings self.old) (number self.old) wheel start.now result)) (history self.old) (history self.new) }
        ensures stays { stays self.old self.new }
        ensures memory { result ≢ Err OutOfMemory };

    fn cancel_timer(&mut self, timer: TimerRef) -> Option<u64>
        requires { may self.old }
        ensures call { Grows (way self.old [] (Cancels (settings self.old) (Caller (number self.old)) timer result)) (history self.old) (history self.new) }
        ensures stays { stays self.old self.new };

    fn read_timer(&mut self, timer: TimerRef) -> Option<u64>
        requires { may self.old }
        ensures call { Grows (way self.old [] (Reads (settings self.old) (Caller (number self.old)) timer result)) (history self.old) (history self.new) }
        ensures stays { stays self.old self.new };

    fn ask(&mut self, request: Request) -> Result<(), NoMemory>
        requires may { may self.old }
        requires process { request.reply_to < (settings self.old).processes }
        ensures call { Grows (way self.old (Inbox (inbox_for (settings self.old) request) ∷ [])
            (Asks (settings self.old) (number self.old) (inbox_for (settings self.old) request) request result)) (history self.old) (history self.new) }
        ensures stays { stays self.old self.new };

    fn take(&mut self, process: u32) -> Taken
        requires may { may self.old }
        requires process { process < (settings self.old).processes }
        ensures call { Grows (way self.old (MailOf process ∷ []) (Takes (settings self.old) (number self.old) process result)) (history self.old) (history self.new) }
        ensures stays { stays self.old self.new };

    fn exit(&mut self, process: u32) -> bool
        requires may { may self.old }
        requires process { process < (settings self.old).processes }
        ensures call { Grows (Exits (settings self.old) (way self.old) (number self.old) process result) (history self.old) (history self.new) }
        ensures stays { stays self.old self.new };

    fn is_alive(&mut self, process: u32) -> bool
        requires may { may self.old }
        requires process { process < (settings self.old).processes }
        ensures call { Grows (way self.old [] (TellsAlive (settings self.old) (Caller (number self.old)) process result)) (history self.old) (history self.new) }
        ensures stays { stays self.old self.new };

    fn monitor(&mut self, process: u32) -> Result<u32, MonitorErr>
        requires may { may self.old }
        requires process { process < (settings self.old).processes }
        ensures call { Grows (way self.old (MailOf process ∷ []) (Monitors (settings self.old) (number self.old) process result)) (history self.old) (history self.new) }
        ensures stays { stays self.old self.new };

    fn demonitor(&mut self, process: u32, monitor: u32) -> bool
        requires may { may self.old }
        requires process { process < (settings self.old).processes }
        ensures call { Grows (way self.old (MailOf process ∷ []) (Demonitors (settings self.old) (number self.old) process monitor result)) (history self.old) (history self.new) }
        ensures stays { stays self.old self.new };

    fn notify(&mut self, process: u32) -> Result<u32, NoMemory>
        requires may { may self.old }
        requires process { process < (settings self.old).processes }
        ensures call { Grows (way self.old (MailOf process ∷ []) (Notifies (settings self.old) (number self.old) process result)) (history self.old) (history self.new) }
        ensures stays { stays self.old self.new };

    ghost same: { (a : Self) → stays a a };
}
