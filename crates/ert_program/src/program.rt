ghost use Rattle.std.specs.Prelude.{◌≡◌, ◌≢◌, ◌≤◌, ◌⊎◌, ℕ, true, false, Some, None, IfSome, IsSomeAnd};
ghost use Rattle.ert_program.specs.{declared.command.Command.TheVariants.{Run, Race, Live, Stress}, Endings.{command_asked, reads_input, reads_clock, HasItsRefusal, UsageEnds}, Lives.LiveEnds, Races.{RaceEnds, RaceOn}, Refusals.usage_line};
ghost use Rattle.ert_program.specs.{RefusedInputs.RefusalEnds, Runs.{InputFits, RunEnds, RunOn}, Streams.{told_by_sink, output_of, clock_stream_of}, Stresses.StressEnds};
ghost use Rattle.ert_io.specs.{Faults.Rose, Reads.input_of, Told.{took, TakesFront}};

use crate::command::Command;
use crate::command_line::command_of;
use crate::ending::{EndStatus, Ended};
use crate::living::live;
use crate::races::Gate;
use crate::racing::race;
use crate::running::run;
use crate::stressing::stress;
use ert_io::{OsClock, Sink, Source, write_all};
use std::sync::Wait;
use std::thread::Threads;

const USAGE: &str = "usage: ertime run | race | live N | stress SEED N\n";

/// The program: `words` is its command line without its name. `run` reads a scenario from the input and
/// writes its transcript to the output; `race` lets threads do the lists of a scenario, each of which passes the
/// gate before each of its turns, and writes the report; `live` takes readings of the clock, and writes both times after each;
/// `stress` makes a scenario from a seed, and writes how many of its timers have which status in the end. At
/// Done it returns the desk that the calls were made on. Where `run` or `race` refuses its input, it returns the bytes
/// with their refusal.
///
/// An output that tells its room has room for all that may be written, and then the command is `run`.
pub fn ertime<
    R: AllocGlobal + Threads + Wait + Sync,
    I: Source,
    O: Sink,
    C: OsClock,
    G: Gate + Sync,
>(rt: &R, words: &[String], input: &mut I, output: &mut O, clock: &mut C, gate: &G) -> Ended
    requires only_run { IfSome (O.room output.old) (λ r. command_asked words.now ≡ Some Run) }
    requires fits { InputFits (I.left input.old) (O.room output.old) }
    ensures run { command_asked words.now ≡ Some Run
        → RunEnds (input_of I.given I.ended I.left I.faults input.old) (input_of I.given I.ended I.left I.faults input.new)
        (output_of O.taken O.room O.faults output.old) (output_of O.taken O.room O.faults output.new) result.status }
    ensures race { command_asked words.now ≡ Some Race
        → RaceEnds (input_of I.given I.ended I.left I.faults input.old) (input_of I.given I.ended I.left I.faults input.new)
        (output_of O.taken O.room O.faults output.old) (output_of O.taken O.room O.faults output.new) result.status }
    ensures live { (n : ℕ) → command_asked words.now ≡ Some (Live n)
        → LiveEnds n (clock_stream_of C.given C.left C.faults clock.old) (clock_stream_of C.given C.left C.faults clock.new)
        (output_of O.taken O.room O.faults output.old) (output_of O.taken O.room O.faults output.new) result }
    ensures stress { (seed n : ℕ) → command_asked words.now ≡ Some (Stress seed n)
        → StressEnds seed n (output_of O.taken O.room O.faults output.old) (output_of O.taken O.room O.faults output.new) result }
    ensures usage { command_asked words.now ≡ None
        → UsageEnds (output_of O.taken O.room O.faults output.old) (output_of O.taken O.room O.faults output.new) result }

    // The desk that `run` and `race` return has the very history of what was written; `live` and `stress` say it themselves.
    ensures run_desk { command_asked words.now ≡ Some Run → result.status ≡ EndStatus.Done
        → IsSomeAnd result.desk (RunOn (input_of I.given I.ended I.left I.faults input.old) (input_of I.given I.ended I.left I.faults input.new)
        (told_by_sink O.taken O.room output.old) (told_by_sink O.taken O.room output.new)) }
    ensures race_desk { command_asked words.now ≡ Some Race → result.status ≡ EndStatus.Done
        → IsSomeAnd result.desk (RaceOn (input_of I.given I.ended I.left I.faults input.old) (input_of I.given I.ended I.left I.faults input.new)
        (told_by_sink O.taken O.room output.old) (told_by_sink O.taken O.room output.new)) }
    ensures no_desk { result.status ≢ EndStatus.Done → result.desk ≡ None }

    // What `run` and `race` leave of input that is no scenario.
    ensures run_refusals { command_asked words.now ≡ Some Run
        → RefusalEnds false (input_of I.given I.ended I.left I.faults input.old) (input_of I.given I.ended I.left I.faults input.new)
        (output_of O.taken O.room O.faults output.old) (output_of O.taken O.room O.faults output.new) result }
    ensures race_refusals { command_asked words.now ≡ Some Race
        → RefusalEnds true (input_of I.given I.ended I.left I.faults input.old) (input_of I.given I.ended I.left I.faults input.new)
        (output_of O.taken O.room O.faults output.old) (output_of O.taken O.room O.faults output.new) result }
    ensures refusal { HasItsRefusal result }
    ensures no_refusal { result.status ≢ EndStatus.Refused → result.refusal ≡ None }
    ensures unrefused { reads_input (command_asked words.now) ≡ false → result.refusal ≡ None }

    // Only `run` and `race` read the input, and only `live` the clock.
    ensures unread { reads_input (command_asked words.now) ≡ false → input.new ≡ input.old }
    ensures untaken { reads_clock (command_asked words.now) ≡ false → clock.new ≡ clock.old }
    ensures later { I.faults input.old ≤ I.faults input.new }
    ensures later_out { O.faults output.old ≤ O.faults output.new }
    ensures later_clock { C.faults clock.old ≤ C.faults clock.new }
{
    let Ok(command) = command_of(rt.alloc(), words) else {
        return Ended::without_desk(EndStatus::NoMemory);
    };
    match command {
        Some(Command::Run) => run(rt.alloc(), input, output),
        Some(Command::Race) => race(rt, rt.alloc(), input, output, gate),
        Some(Command::Live(n)) => live(rt.alloc(), n, clock, output),
        Some(Command::Stress { seed, n }) => Ended::of_run(stress(rt.alloc(), seed, n, output)),
        None => Ended::without_desk(usage(output)),
    }
}

/// Writes the usage line.
fn usage<O: Sink>(output: &mut O) -> EndStatus
    requires { O.room output.old ≡ None }
    ensures which { (result ≡ EndStatus.Usage) ⊎ (result ≡ EndStatus.WriteFault) }
    ensures usage { result ≡ EndStatus.Usage → told_by_sink O.taken O.room output.new ≡ took (told_by_sink O.taken O.room output.old) usage_line }
    ensures write_fault { result ≡ EndStatus.WriteFault → TakesFront (told_by_sink O.taken O.room output.old) (told_by_sink O.taken O.room output.new) usage_line }
    ensures later { O.faults output.old ≤ O.faults output.new }
    ensures cause { result ≡ EndStatus.WriteFault → Rose (O.faults output.old) (O.faults output.new) }
{
    match write_all(output, USAGE.as_bytes()) {
        Ok(()) => EndStatus::Usage,
        Err(_) => EndStatus::WriteFault,
    }
}
