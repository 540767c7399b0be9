//! A race from its settings to its report.
ghost use Rattle.std.specs.Prelude.{◌≡◌, ◌≤◌, None, IfOk, OnErr, IsErrOf, string_bytes};
ghost use Rattle.ert_defs.specs.Settings.{IsChecked};
ghost use Rattle.ert_io.specs.{Faults.Rose, Told.sink_told};
ghost use Rattle.ert_ops.specs.{Races.{IsRace, race_of}, Ranges.AreOpsInRange};
ghost use Rattle.ert_program.specs.{Lists.dids_of, Written.{RacesOn, StopsRace, report_behind}};

use crate::races::gates::Gate;
use crate::races::race::{RaceEnd, race_on};
use crate::races::report::{name_all, write_lists};
use ert_defs::{NoMemory, Settings};
use ert_io::Sink;
use ert_ops::{Op, RaceLists};
use ert_script::{LabelMap, RunErr, history_stands, run_ops, write_end, write_page, write_settled};
use ert_table::{Desk, Pass};
use ert_world::World;
use std::alloc::Global;
use std::sync::{Arc, Wait};
use std::thread::Threads;

/// Runs the ops on a new world, then the race, writes the report, and gives the world's desk. The sink tells
/// no room, for no number of bytes is known that every report fits.
///
/// Where the output fails, or memory, the first part of a report was written, or of the lines of the ops.
pub fn run_race<R: Threads + Wait + Sync, G: Gate + Sync, O: Sink>(
    rt: &R,
    alloc: Global,
    settings: &Settings,
    ops: &[Op],
    race: &RaceLists,
    gate: &G,
    output: &mut O,
) -> Result<(Arc<Desk>, Pass), RunErr>
    requires room { O.room output.old ≡ None }
    requires checked { IsChecked settings.now }
    requires ranges { AreOpsInRange settings.now ops.now }
    requires race { IsRace settings.now ops.now (race_of race.now) }
    ensures ok { IfOk result (λ r. RacesOn settings.now ops.now (race_of race.now)
        (sink_told (O.taken output.old) (O.room output.old)) (sink_told (O.taken output.new) (O.room output.new)) r) }
    ensures err { OnErr result (StopsRace settings.now ops.now (race_of race.now)
        (sink_told (O.taken output.old) (O.room output.old)) (sink_told (O.taken output.new) (O.room output.new))) }
    ensures later { O.faults output.old ≤ O.faults output.new }
    ensures cause { IsErrOf result RunErr.WriteFault → Rose (O.faults output.old) (O.faults output.new) }
{
    let Ok(mut world) = World::open(alloc, settings) else {
        return Err(RunErr::NoMemory);
    };
    let mut labels = LabelMap::new(alloc);
    run_ops(alloc, &mut world, &mut labels, ops, output)?;
    let Ok(end) = race_on(rt, alloc, world, &labels, race, gate) else {
        return Err(RunErr::NoMemory);
    };
    // For the prover alone: the report is told of a world that stands for its history.
    history_stands(&end.world);
    let Ok(mut page) = report_page(alloc, labels, &end) else {
        return Err(RunErr::NoMemory);
    };
    write_page(output, &mut page)?;
    Ok(end.world.into_desk())
}

/// The report behind the lines of the ops, which bound these labels.
fn report_page(alloc: Global, mut labels: LabelMap, end: &RaceEnd) -> Result<String, NoMemory>
    requires { end.now.world.next ≡ 1 }
    ensures { IfOk result (λ page. string_bytes page ≡ report_behind end.now.world labels (dids_of end.now.lists.items)) }
{
    name_all(&mut labels, &end.lists)?;
    let mut page = String::new(alloc);
    write_lists(&mut page, &end.lists, &labels)?;
    write_settled(&mut page, &end.world.counts())?;
    write_end(&mut page, end.world.published())?;
    Ok(page)
}
