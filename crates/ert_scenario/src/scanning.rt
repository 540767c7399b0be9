ghost use Rattle.std.specs.Prelude.{◌++◌, [], List, map, OnOk, IfOk, IfErr};
ghost use Rattle.serde_json.specs.View.{view};
ghost use Rattle.ert_ops.specs.declared.op.Op.{Op as AnOp};
ghost use Rattle.ert_scenario.specs.{Kinds.FoundOrFault, Lists.{lists_seen, race_seen}, Walked.{WalkIsAt, IsOver, IsShapeAt}, Walks.{raws_of, caller_raws, race_raws, all_raws, first_shape}};

use crate::doer::ListDoer;
use crate::format::Format;
use crate::kinds::items_in;
use crate::limits::MOST_OPS;
use crate::lists::{Lists, RaceItems};
use crate::rows::op_of;
use crate::scenario::ScenarioErr;
use crate::walk::Walk;
use serde_json::Value;
use std::alloc::Global;

/// Walks over the ops of all lists.
pub(crate) fn scan(alloc: Global, format: Format, lists: &Lists) -> Result<Walk, ScenarioErr>
    ensures ok { IfOk result (λ w. IsOver w.ops.items w.range (all_raws format (lists_seen lists.now))) }
    ensures err { IfErr result (λ e. IsShapeAt e (first_shape 1 (all_raws format (lists_seen lists.now)))) }
{
    let mut walk = Walk::new(alloc, lists.ops.len().min(MOST_OPS as usize))?;
    scan_list(&mut walk, format, ListDoer::Everyone, lists.ops)?;
    scan_others(&mut walk, format, lists)?;
    Ok(walk)
}

/// Walks over the ops of a race, where there is one.
fn scan_others(walk: &mut Walk, format: Format, lists: &Lists) -> Result<(), ScenarioErr>
    ensures goes_on { OnOk result ((all : List (FoundOrFault AnOp))
        → WalkIsAt walk.old (race_raws format (lists_seen lists.now).race) all → WalkIsAt walk.new [] all) }
    ensures stops { IfErr result (λ e. (all : List (FoundOrFault AnOp))
        → WalkIsAt walk.old (race_raws format (lists_seen lists.now).race) all → IsShapeAt e (first_shape 1 all)) }
{
    match &lists.race {
        Some(race) => scan_race(walk, format, race),
        None => Ok(()),
    }
}

/// Walks over the ops of a race, which are the last.
fn scan_race(walk: &mut Walk, format: Format, race: &RaceItems) -> Result<(), ScenarioErr>
    ensures goes_on { OnOk result ((all : List (FoundOrFault AnOp))
        → WalkIsAt walk.old (race_raws format (Some (race_seen race.now))) all → WalkIsAt walk.new [] all) }
    ensures stops { IfErr result (λ e. (all : List (FoundOrFault AnOp))
        → WalkIsAt walk.old (race_raws format (Some (race_seen race.now))) all → IsShapeAt e (first_shape 1 all)) }
{
    scan_list(walk, format, ListDoer::Keeper, race.keeper)?;
    for list in race.callers {
        scan_list(walk, format, ListDoer::Caller, items_in(list))?;
    }
    Ok(())
}

/// Walks over the ops of one list.
fn scan_list(
    walk: &mut Walk,
    format: Format,
    doer: ListDoer,
    items: &[Value],
) -> Result<(), ScenarioErr>
    ensures goes_on { OnOk result ((rest all : List (FoundOrFault AnOp))
        → WalkIsAt walk.old (raws_of format doer (map view items.now) ++ rest) all → WalkIsAt walk.new rest all) }
    ensures stops { IfErr result (λ e. (rest all : List (FoundOrFault AnOp))
        → WalkIsAt walk.old (raws_of format doer (map view items.now) ++ rest) all → IsShapeAt e (first_shape 1 all)) }
{
    for value in items {
        walk.step(op_of(format, doer, value))?;
    }
    Ok(())
}
