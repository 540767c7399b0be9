//! The threads of a race: one for each caller and one for each scheduler.
ghost use Rattle.std.specs.Prelude.{◌≡◌, ◌<◌, ℕ, suc, List, length, map, slice_index_or, IfOk};
ghost use Rattle.ert_defs.specs.declared.entry.Entry.{Entry};
ghost use Rattle.ert_ops.specs.Races.{MayDoAll, lists_of, race_of};
ghost use Rattle.ert_program.specs.Worked.{list_at, list_ok, turns_ok, CallerWorked, SchedWorked, ListsDone, TurnsDone};
ghost use Rattle.ert_service.specs.Dividing.{AreSeated};
ghost use Rattle.ert_table.specs.Desks.{front_of};

use crate::races::gates::Gate;
use crate::races::list::{ListDone, do_list};
use crate::races::session_doer::SessionDoer;
use crate::races::turns::do_turns;
use ert_defs::NoMemory;
use ert_locks::{CallerSeat, DeskName, SchedSeat};
use ert_ops::{Op, RaceLists};
use ert_script::LabelMap;
use ert_service::{Service, Session};
use std::alloc::Global;
use std::sync::Wait;
use std::thread;
use std::thread::Threads;

/// What a caller's thread gives back.
#[derive(Drop)]
pub(crate) struct CallerDone<L: DeskName> {
    pub(crate) seat: CallerSeat<L>,
    pub(crate) done: Result<ListDone, NoMemory>,
}

/// What a scheduler's thread gives back.
#[derive(Drop)]
pub(crate) struct SchedDone<L: DeskName> {
    pub(crate) seat: SchedSeat<L>,
    pub(crate) done: Result<(), NoMemory>,
}

/// The list of a caller: caller 0 does the keeper list.
fn list_for(race: &RaceLists, number: u32) -> &[Op]
    requires { number < suc (length race.now.callers.items) }
    ensures { result.now ≡ list_at (lists_of (race_of race.now)) number }
{
    if number == 0 {
        &race.keeper
    } else {
        &race.callers[number as usize - 1]
    }
}

/// Does the list of a caller.
fn work_as_caller<L: DeskName, R: Wait, G: Gate>(
    rt: &R,
    alloc: Global,
    service: &Service<L>,
    seat: CallerSeat<L>,
    race: &RaceLists,
    known: &LabelMap,
    gate: &G,
) -> CallerDone<L>
    requires callers { L.settings.callers ≡ suc (length race.now.callers.items) }
    requires may { MayDoAll L.settings (lists_of (race_of race.now)) }
    ensures { CallerWorked L.settings known.now (lists_of (race_of race.now))
        seat.number (front_of seat.pass) result.seat.number (front_of result.seat.pass) result.done }
{
    let ops = list_for(race, seat.number);
    let session = Session { service, rt, seat };
    let mut doer = SessionDoer { session };
    let done = do_list(alloc, &mut doer, known, ops, gate);
    CallerDone {
        seat: doer.session.seat,
        done,
    }
}

/// Makes the turns of a scheduler. The workers of schedulers count from 1.
fn work_as_sched<L: DeskName, R: Wait, G: Gate>(
    rt: &R,
    service: &Service<L>,
    seat: SchedSeat<L>,
    turns: u64,
    gate: &G,
) -> SchedDone<L>
    ensures { SchedWorked L.settings turns seat.part.wheel (front_of seat.pass) result.seat.part.wheel (front_of result.seat.pass) result.done }
{
    let worker = seat.part.wheel + 1;
    let mut session = Session { service, rt, seat };
    let done = do_turns(&mut session, turns, worker, gate);
    SchedDone {
        seat: session.seat,
        done,
    }
}

/// Each caller does its list, in a thread of its own where one can be made.
fn run_callers<L: DeskName + Send + Sync, R: Threads + Wait + Sync, G: Gate + Sync>(
    rt: &R,
    alloc: Global,
    service: &Service<L>,
    callers: Vec<CallerSeat<L>>,
    race: &RaceLists,
    known: &LabelMap,
    gate: &G,
) -> Result<Vec<CallerDone<L>>, NoMemory>
    requires callers { L.settings.callers ≡ suc (length race.now.callers.items) }
    requires may { MayDoAll L.settings (lists_of (race_of race.now)) }
    ensures counted { IfOk result (λ v. length v.items ≡ length callers.items) }
    ensures worked { IfOk result (λ v. (k : ℕ) (d : _) (s : _) → k < length callers.items
        → CallerWorked L.settings known.now (lists_of (race_of race.now))
        (slice_index_or callers.items k s).number (front_of (slice_index_or callers.items k s).pass)
        (slice_index_or v.items k d).seat.number (front_of (slice_index_or v.items k d).seat.pass) (slice_index_or v.items k d).done) }
{
    Ok(thread::map_vec(
        rt,
        callers,
        &|seat| { work_as_caller(rt, alloc, service, seat, race, known, gate) },
    )?)
}

/// Each scheduler makes its turns, in a thread of its own where one can be made.
fn run_scheds<L: DeskName + Send + Sync, R: Threads + Wait + Sync, G: Gate + Sync>(
    rt: &R,
    service: &Service<L>,
    scheds: Vec<SchedSeat<L>>,
    turns: u64,
    gate: &G,
) -> Result<Vec<SchedDone<L>>, NoMemory>
    ensures counted { IfOk result (λ v. length v.items ≡ length scheds.items) }
    ensures worked { IfOk result (λ v. (k : ℕ) (d : _) (s : _) → k < length scheds.items
        → SchedWorked L.settings turns
        (slice_index_or scheds.items k s).part.wheel (front_of (slice_index_or scheds.items k s).pass)
        (slice_index_or v.items k d).seat.part.wheel (front_of (slice_index_or v.items k d).seat.pass) (slice_index_or v.items k d).done) }
{
    Ok(thread::map_vec(
        rt,
        scheds,
        &|seat| { work_as_sched(rt, service, seat, turns, gate) },
    )?)
}

/// Takes the seats and what came of the lists apart.
fn collect_lists<L: DeskName>(
    alloc: Global,
    all: Vec<CallerDone<L>>,
) -> Result<(Vec<CallerSeat<L>>, Vec<ListDone>), NoMemory>
    ensures seats { IfOk result (λ r. r.0.items ≡ map (λ d. d.seat) all.items) }
    ensures lists { IfOk result (λ r. map list_ok r.1.items ≡ map (λ d. d.done) all.items) }
{
    let mut seats = Vec::with_capacity(alloc, all.len())?;
    let mut lists = Vec::with_capacity(alloc, all.len())?;
    for one in all {
        let CallerDone { seat, done } = one;
        let list = done?;
        seats.push_reserved(seat);
        lists.push_reserved(list);
    }
    Ok((seats, lists))
}

/// Takes the seats, where each scheduler has made its turns.
fn collect_scheds<L: DeskName>(
    alloc: Global,
    all: Vec<SchedDone<L>>,
) -> Result<Vec<SchedSeat<L>>, NoMemory>
    ensures seats { IfOk result (λ r. r.items ≡ map (λ d. d.seat) all.items) }
    ensures done { IfOk result (λ r. map turns_ok r.items ≡ map (λ d. d.done) all.items) }
{
    let mut seats = Vec::with_capacity(alloc, all.len())?;
    for one in all {
        let SchedDone { seat, done } = one;
        done?;
        seats.push_reserved(seat);
    }
    Ok(seats)
}

/// All callers do their lists at once.
pub(crate) fn do_lists<L: DeskName + Send + Sync, R: Threads + Wait + Sync, G: Gate + Sync>(
    rt: &R,
    alloc: Global,
    service: &Service<L>,
    callers: Vec<CallerSeat<L>>,
    race: &RaceLists,
    known: &LabelMap,
    gate: &G,
) -> Result<(Vec<CallerSeat<L>>, Vec<ListDone>), NoMemory>
    requires callers { L.settings.callers ≡ suc (length race.now.callers.items) }
    requires may { MayDoAll L.settings (lists_of (race_of race.now)) }
    ensures { (f : List Entry) → AreSeated (λ s. s.number) (λ s. front_of s.pass) L.settings.callers f callers.items
        → IfOk result (λ r. ListsDone (λ s. s.number) (λ s. front_of s.pass) L.settings known.now (lists_of (race_of race.now)) f r.0.items r.1.items) }
{
    let all = run_callers(rt, alloc, service, callers, race, known, gate)?;
    collect_lists(alloc, all)
}

/// All schedulers make their turns at once.
pub(crate) fn make_turns<L: DeskName + Send + Sync, R: Threads + Wait + Sync, G: Gate + Sync>(
    rt: &R,
    alloc: Global,
    service: &Service<L>,
    scheds: Vec<SchedSeat<L>>,
    turns: u64,
    gate: &G,
) -> Result<Vec<SchedSeat<L>>, NoMemory>
    ensures { (f : List Entry) → AreSeated (λ s. s.part.wheel) (λ s. front_of s.pass) L.settings.schedulers f scheds.items
        → IfOk result (λ r. TurnsDone (λ s. s.part.wheel) (λ s. front_of s.pass) L.settings turns f r.items) }
{
    let all = run_scheds(rt, service, scheds, turns, gate)?;
    collect_scheds(alloc, all)
}
