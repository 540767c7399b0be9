//! The command `live`.
ghost use Rattle.std.specs.Prelude.{◌≡◌, ◌≤◌, ◌++◌, [], ◌∷◌, List, None, IfOk, OnOk, OnErr, string_bytes};
ghost use Rattle.ert_defs.specs.{Readings.IsValid, declared.settings.Reading.Reading as OneReading};
ghost use Rattle.ert_io.specs.Known.{stream_told, HandsUpTo};
ghost use Rattle.ert_ops.specs.declared.op.Op.TheVariants as ops;
ghost use Rattle.ert_script.specs.Scripts.{Does};
ghost use Rattle.ert_ops.specs.declared.reply.Reply.TheVariants as replies;
ghost use Rattle.ert_program.specs.{Lives.{live_settings, live_part, refused_reading, Watched, LiveEnds, Lived, TellsTimes}, Streams.{clock_stream_of, output_of}};

use crate::ending::{EndStatus, Ended};
use ert_defs::{Mode, NoMemory, Reading, SCENARIO_LOOKS, Settings};
use ert_io::{OsClock, Sink};
use ert_script::{history_stands, tick, write_end, write_page};
use ert_world::World;
use std::alloc::{AllocError, Global};
use std::fmt::Write;

/// Takes `n` readings of the clock. The first opens a service without time warp and with time correction,
/// and each later one is a tick; after each it writes both times. The lines are written when the last
/// reading was taken. The sink tells no room.
pub fn live<O: Sink, C: OsClock>(alloc: Global, n: u64, clock: &mut C, output: &mut O) -> Ended
    requires some { 1 ≤ n }
    requires room { O.room output.old ≡ None }
    ensures ends { LiveEnds n (clock_stream_of C.given C.left C.faults clock.old) (clock_stream_of C.given C.left C.faults clock.new)
        (output_of O.taken O.room O.faults output.old) (output_of O.taken O.room O.faults output.new) result }
    ensures no_refusal { result.refusal ≡ None }
    ensures later { O.faults output.old ≤ O.faults output.new }
    ensures later_clock { C.faults clock.old ≤ C.faults clock.new }
{
    let mut page = String::new(alloc);
    let Ok(made) = watch(alloc, n, clock, &mut page) else {
        return Ended::without_desk(EndStatus::NoMemory);
    };
    match write_page(output, &mut page) {
        Ok(()) => made,
        Err(_) => Ended::without_desk(EndStatus::WriteFault),
    }
}

/// Takes the readings, and appends to the empty page what is to be written.
fn watch<C: OsClock>(
    alloc: Global,
    n: u64,
    clock: &mut C,
    page: &mut String,
) -> Result<Ended, NoMemory>
    requires some { 1 ≤ n }
    requires empty { string_bytes page.old ≡ [] }
    ensures ok { IfOk result (λ made. Watched n (clock_stream_of C.given C.left C.faults clock.old) (clock_stream_of C.given C.left C.faults clock.new) made (string_bytes page.new)) }
    ensures err { OnErr result (HandsUpTo n (stream_told (C.given clock.old) (C.left clock.old)) (stream_told (C.given clock.new) (C.left clock.new))) }
    ensures no_refusal { IfOk result (λ made. made.refusal ≡ None) }
    ensures later { C.faults clock.old ≤ C.faults clock.new }
{
    let Ok(first) = clock.read() else {
        return Ok(Ended::without_desk(EndStatus::ClockFault));
    };
    if !first.is_valid() {
        write_bad_reading(page, 1)?;
        return Ok(Ended::without_desk(EndStatus::Refused));
    }
    let mut world = begin(alloc, first, page)?;
    'readings: for taken in 1..n {
        let Ok(reading) = clock.read() else {
            return Ok(Ended::without_desk(EndStatus::ClockFault));
        };
        if !reading.is_valid() {
            write_bad_reading(page, taken + 1)?;
            return Ok(Ended::without_desk(EndStatus::Refused));
        }
        go_on(&mut world, reading, page)?;
    }
    write_end(page, world.published())?;
    Ok(Ended {
        status: EndStatus::Done,
        desk: Some(world.into_desk()),
        refusal: None,
    })
}

fn write_bad_reading(page: &mut String, number: u64) -> Result<(), AllocError>
    ensures { OnOk result (string_bytes page.new ≡ string_bytes page.old ++ refused_reading number) }
{
    write!(page, "refused reading {number}\n")
}

/// Opens a service by the first reading, and appends its line to the empty page.
fn begin(alloc: Global, first: Reading, page: &mut String) -> Result<World, NoMemory>
    requires valid { IsValid first }
    requires empty { string_bytes page.old ≡ [] }
    ensures { IfOk result (λ w. Lived first [] w (string_bytes page.new)) }
{
    let mut world = World::open(alloc, &live_settings(first))?;
    tell(&mut world, page)?;
    Ok(world)
}

/// A service without time warp and with time correction.
fn live_settings(first: Reading) -> Settings
    ensures { result ≡ live_settings first }
{
    Settings {
        mode: Mode::No,
        correction: true,
        start: 0,
        schedulers: 1,
        processes: 1,
        slots: 1,
        looks: SCENARIO_LOOKS,
        callers: 1,
        first,
    }
}

/// The clock ticks by one more reading, and its line is appended.
fn go_on(world: &mut World, reading: Reading, page: &mut String) -> Result<(), AllocError>
    requires valid { IsValid reading }
    requires lone { world.old.next ≡ 1 }
    ensures { (first : OneReading) (others : List OneReading) → Lived first others world.old (string_bytes page.old)
        → OnOk result (Lived first (others ++ reading ∷ []) world.new (string_bytes page.new)) }
{
    tick(world, reading.mono, reading.sys);
    tell(world, page)
}

/// Appends the line of both times.
fn tell(world: &mut World, page: &mut String) -> Result<(), AllocError>
    requires { world.old.next ≡ 1 }
    ensures { OnOk result (TellsTimes world.old world.new (string_bytes page.old) (string_bytes page.new)) }
{
    let now = monotonic_time(world);
    let time = system_time(world);
    // For the prover alone: the times are those of the history for which the world stands.
    history_stands(world);
    write_times(page, now, time)
}

fn write_times(page: &mut String, now: i64, time: i64) -> Result<(), AllocError>
    ensures { OnOk result (string_bytes page.new ≡ string_bytes page.old ++ (live_part (replies.Time now) ++ live_part (replies.System time))) }
{
    write!(page, "live {now} {time}\n")
}

fn monotonic_time(world: &mut World) -> i64
    requires { world.old.next ≡ 1 }
    ensures { Does world.old ops.Time (replies.Time result) world.new }
{
    world.monotonic_time()
}

fn system_time(world: &mut World) -> i64
    requires { world.old.next ≡ 1 }
    ensures { Does world.old ops.System (replies.System result) world.new }
{
    world.system_time()
}
