//! The scenario, made of the ops of all lists.

ghost use Rattle.std.specs.Prelude.{◌≡◌, ◌≤◌, map, take, drop, IfOk};
ghost use Rattle.ert_ops.specs.Races.{race_of};
ghost use Rattle.ert_scenario.specs.{Cuts.{cut_callers, cut_race, cut_plan}, Lists.{lists_seen, race_seen, list_count}, Scenarios.plan_of};
ghost use Rattle.serde_json.specs.View.{view};

use crate::fields::Top;
use crate::kinds::items_in;
use crate::lists::{Lists, RaceItems};
use crate::scenario::Scenario;
use ert_defs::Settings;
use ert_ops::{Op, RaceLists};
use serde_json::Value;
use std::alloc::{AllocError, Global};

/// The scenario whose lists stand one after the other in these ops.
pub(crate) fn scenario_from(
    alloc: Global,
    top: Top,
    lists: &Lists,
    mut ops: Vec<Op>,
) -> Result<Scenario, AllocError>
    requires { list_count (lists_seen lists.now).race ≤ 16 }
    ensures { IfOk result (λ s. plan_of s ≡ cut_plan top (lists_seen lists.now) ops.items) }
{
    let (_, others) = front(&ops, lists.ops.len());
    let race = match &lists.race {
        Some(race) => Some(race_from(alloc, top.turns, race, others)?),
        None => None,
    };
    ops.truncate(lists.ops.len());
    Ok(Scenario {
        settings: Settings {
            callers: 1 + lists.count() as u32,
            ..top.settings
        },
        ops,
        race,
    })
}

/// The race whose lists stand one after the other in these ops.
fn race_from(
    alloc: Global,
    turns: u64,
    race: &RaceItems,
    ops: &[Op],
) -> Result<RaceLists, AllocError>
    ensures { IfOk result (λ r. race_of r ≡ cut_race turns (race_seen race.now) ops.now) }
{
    let (keeper, rest) = front(ops, race.keeper.len());
    Ok(RaceLists {
        turns,
        keeper: Vec::from_slice(alloc, keeper)?,
        callers: callers_from(alloc, race.callers, rest)?,
    })
}

/// The lists of the callers, as many ops for each as its array has items.
fn callers_from(alloc: Global, lists: &[Value], ops: &[Op]) -> Result<Vec<Vec<Op>>, AllocError>
    ensures { IfOk result (λ v. map (λ list. list.items) v.items ≡ cut_callers (map view lists.now) ops.now) }
{
    let mut callers = Vec::with_capacity(alloc, lists.len())?;
    let mut rest = ops;
    for list in lists {
        let (ours, others) = front(rest, items_in(list).len());
        callers.push(Vec::from_slice(alloc, ours)?)?;
        rest = others;
    }
    Ok(callers)
}

/// The first ops, so many or as many as there are, and the others.
fn front(ops: &[Op], count: usize) -> (&[Op], &[Op])
    ensures front { result.0.now ≡ take count ops.now }
    ensures others { result.1.now ≡ drop count ops.now }
{
    ops.split_at(count.min(ops.len()))
}
