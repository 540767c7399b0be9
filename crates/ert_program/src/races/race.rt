//! A race over a world.
ghost use Rattle.std.specs.Arc.{arc_value};
ghost use Rattle.std.specs.Prelude.{◌≡◌, suc, List, length, IfOk, None};
ghost use Rattle.ert_defs.specs.declared.entry.Entry.{Entry};
ghost use Rattle.ert_locks.specs.Names.{IsDesk};
ghost use Rattle.ert_ops.specs.Races.{MayDoAll, lists_of, race_of};
ghost use Rattle.ert_program.specs.{Ends.{RunsAtOnce, RacesTo}, Lists.dids_of, Worked.{ListsDone, TurnsDone}};
ghost use Rattle.ert_world.specs.{Parts.parts_of, Worlds.{AreFit, seen}};
ghost use Rattle.ert_service.specs.Dividing.{AreSeated};
ghost use Rattle.ert_table.specs.Desks.{front_of};

use crate::races::gates::Gate;
use crate::races::list::ListDone;
use crate::races::round::last_round;
use crate::races::workers::{do_lists, make_turns};
use ert_defs::NoMemory;
use ert_locks::{CallerSeat, DeskName, SchedSeat};
use ert_ops::RaceLists;
use ert_script::{LabelMap, history_stands};
use ert_service::{Opened, Service};
use ert_world::{Parts, World};
use std::alloc::Global;
use std::marker::Brand;
use std::sync::Wait;
use std::thread;
use std::thread::Threads;

/// What a race leaves: the world, and what came of the list of each caller, in order of number. The first is
/// that of caller 0, the keeper list.
#[derive(Drop)]
pub struct RaceEnd {
    pub world: World,
    pub lists: Vec<ListDone>,
}

/// Runs a race on a world: each caller does its list and each scheduler makes its turns, all at once, in threads
/// where they can be made. When all have returned, each scheduler makes one turn more. The world gave out no seat,
/// and `known` has the labels that were bound on it.
///
/// A worker passes the gate before each of its ops or turns. Worker 0 does the keeper list, the workers from 1
/// on make the turns of the schedulers, and those after them do the lists of the callers from 1 on.
///
/// If memory runs out, the world is given up.
pub fn race_on<R: Threads + Wait + Sync, G: Gate + Sync>(
    rt: &R,
    alloc: Global,
    world: World,
    known: &LabelMap,
    race: &RaceLists,
    gate: &G,
) -> Result<RaceEnd, NoMemory>
    requires callers { world.settings.callers ≡ suc (length race.now.callers.items) }
    requires may { MayDoAll world.settings (lists_of (race_of race.now)) }
    requires lone { world.next ≡ 1 }
    ensures { IfOk result (λ e. RacesTo world known.now (race_of race.now) (dids_of e.lists.items) e.world) }
{
    let parts = world.into_parts();
    let RaceEnd { mut world, lists } = run_at_once::<Brand, R, G>(
        rt, alloc, parts, known, race, gate,
    )?;
    last_round(&mut world)?;
    Ok(RaceEnd { world, lists })
}

/// Opens a service on the parts of a world, lets all act on it at once, and closes it.
fn run_at_once<L: DeskName + Send + Sync, R: Threads + Wait + Sync, G: Gate + Sync>(
    rt: &R,
    alloc: Global,
    parts: Parts,
    known: &LabelMap,
    race: &RaceLists,
    gate: &G,
) -> Result<RaceEnd, NoMemory>
    requires desk { IsDesk L.table L.settings (arc_value parts.desk) }
    requires fit { AreFit (arc_value parts.desk) parts.pass 1 (parts_of parts.keeper parts.wheels.items parts.inboxes.items parts.mails.items parts.scheds.items) }
    requires callers { L.settings.callers ≡ suc (length race.now.callers.items) }
    requires may { MayDoAll L.settings (lists_of (race_of race.now)) }
    ensures { IfOk result (λ e. RunsAtOnce (seen (arc_value parts.desk) parts.pass 1 parts.keeper parts.wheels.items None)
        known.now (race_of race.now) (dids_of e.lists.items) e.world) }
{
    let Opened {
        service,
        rest,
        scheds,
        callers,
    } = Service::<L>::open(alloc, parts)?;
    let (scheds, callers) = work_at_once(rt, alloc, &service, (scheds, callers), known, race, gate);
    let scheds = scheds?;
    let (callers, lists) = callers?;
    let world = service.close(rest, scheds, callers);
    // For the prover alone: the history of the world is legal.
    history_stands(&world);
    Ok(RaceEnd { world, lists })
}

/// All schedulers make their turns and all callers do their lists, at once.
fn work_at_once<L: DeskName + Send + Sync, R: Threads + Wait + Sync, G: Gate + Sync>(
    rt: &R,
    alloc: Global,
    service: &Service<L>,
    seats: (Vec<SchedSeat<L>>, Vec<CallerSeat<L>>),
    known: &LabelMap,
    race: &RaceLists,
    gate: &G,
) -> (
    Result<Vec<SchedSeat<L>>, NoMemory>,
    Result<(Vec<CallerSeat<L>>, Vec<ListDone>), NoMemory>,
)
    requires callers { L.settings.callers ≡ suc (length race.now.callers.items) }
    requires may { MayDoAll L.settings (lists_of (race_of race.now)) }
    ensures turned { (f : List Entry) → AreSeated (λ s. s.part.wheel) (λ s. front_of s.pass) L.settings.schedulers f seats.0.items
        → IfOk result.0 (λ r. TurnsDone (λ s. s.part.wheel) (λ s. front_of s.pass) L.settings race.now.turns f r.items) }
    ensures done { (f : List Entry) → AreSeated (λ s. s.number) (λ s. front_of s.pass) L.settings.callers f seats.1.items
        → IfOk result.1 (λ r. ListsDone (λ s. s.number) (λ s. front_of s.pass) L.settings known.now (lists_of (race_of race.now)) f r.0.items r.1.items) }
{
    let (scheds, callers) = seats;
    thread::join(
        rt,
        || make_turns(rt, alloc, service, scheds, race.turns, gate),
        ||
            requires { (L.settings.callers ≡ suc (length race.now.callers.items)) × MayDoAll L.settings (lists_of (race_of race.now)) }
            ensures { (f : List Entry) → AreSeated (λ s. s.number) (λ s. front_of s.pass) L.settings.callers f callers.items
                → IfOk result (λ r. ListsDone (λ s. s.number) (λ s. front_of s.pass) L.settings known.entry.now
                (lists_of (race_of race.entry.now)) f r.0.items r.1.items) }
        { do_lists(rt, alloc, service, callers, race, known, gate) },
    )
}
