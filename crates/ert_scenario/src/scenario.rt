ghost use Rattle.std.specs.Prelude.{◌≡◌, ◌≢◌, [], List, IfOk, IfErr};
ghost use Rattle.serde_json.specs.View.{view};
ghost use Rattle.ert_scenario.specs.{Scenarios.{plan_of, is_over, judged, verdict_of, IsScenario, HasRefusal}, Kinds.FoundOrFault, Labels.tested, Lists.lists_seen, Walked.IsOver, Walks.{all_raws, founds_of, first_range}};
ghost use Rattle.ert_ops.specs.declared.op.Op.{Op as AnOp};

use crate::cutting::scenario_from;
use crate::fault::Fault;
use crate::fields::{Top, top_of};
use crate::format::{Format, format_of};
use crate::labels::{Labels, first_out};
use crate::limits::{MOST_LISTS, MOST_OPS, MOST_TURNS};
use crate::lists::{Lists, lists_found};
use crate::quick::read_quickly;
use crate::scanning::scan;
use crate::walk::Walk;
use ert_defs::Settings;
use ert_ops::{Op, RaceLists};
use serde_json::Value;
use std::alloc::Global;
use thiserror::Error;

/// What a service is opened with, and the ops that are run on it.
#[derive(Debug, Drop)]
pub struct Scenario {
    /// Settings that a service can be opened with: those of the scenario's fields. There is 1 caller, and one
    /// more for each callers' list of a race.
    pub settings: Settings,
    /// Each with its arguments in range. In these and in the lists of a race there are at most 100,000 ops
    /// together, and no two starts of them have one label.
    pub ops: Vec<Op>,
    /// What is done by several threads after that. It is there exactly where a race was wanted.
    pub race: Option<RaceLists>,
}

/// Why bytes are no scenario: the first of these, in this order. Place 0 is the object itself with its
/// fields other than the ops; the ops have the places 1, 2 and so on: first those of `ops`, and in a race then
/// those of `keeper`, and then those of the callers' lists in order.
#[derive(Clone, Copy, Debug, PartialEq, Eq, Error)]
pub enum ScenarioErr {
    /// The bytes aren't one JSON value in UTF-8, or it nests more than 127 arrays and objects.
    #[error("not JSON")]
    Json,
    /// At this place, and at no lesser one, a value isn't of the kind that the format asks for, a field is
    /// missing or unknown, an op is unknown or stands in a list where it may not, or it has too few or too many
    /// arguments.
    #[error("shape fault at {0}")]
    Shape(u32),
    /// No place has such a fault. At this place, and at no lesser one, a value is out of range: the format
    /// is neither 1 nor 2, a service can't be opened with the settings, the turns of a race are negative, a
    /// reading isn't valid, a label is outside of 0 to 999,999, a scheduler or process isn't below its count, a monitor is outside of 0 to
    /// 4294967295, the parts per second of a unit are 0 or at least 2^63, or a start has the label of a
    /// start at a lesser place.
    #[error("range fault at {0}")]
    Range(u32),
    /// No place has a fault, and there are more than 100,000 ops in all lists together, more than 16 callers'
    /// lists, or more than 10,000 turns. The place is 0.
    #[error("too much at {0}")]
    Limit(u32),
    /// Memory ran out. This may come in place of any answer.
    #[error("out of memory")]
    NoMemory,
}

/// Reads a scenario, in format 1 or 2, with a race where one is wanted.
///
/// The bytes are one JSON object with these fields, and no other. All but `format`, `first`, `ops` and `race`
/// may be absent.
///
/// - `format`: the integer 1 or 2.
/// - `mode`: the time warp mode, `"no"`, `"single"` or `"multi"`; `"no"` where it is absent.
/// - `correction`: whether time correction is on, `true` or `false`; `true` where it is absent.
/// - `start`: the start time in nanoseconds, an integer; 0 where it is absent.
/// - `schedulers`, `processes` and `slots`, the timer slots of each scheduler: integers; 1, 1 and 1024 where
///   they are absent.
/// - `first`: the reading that the clock opens with, an array of `mono` and `sys`.
/// - `ops`: an array of ops. An op is an array of its name and its arguments, as `Op` has them. In format 1
///   there is no `send_after` and no `cancel_quiet`, and `cancel_async` and `read_async` have no last
///   argument: it is `true`.
/// - `race`: what several threads do after that. The field is needed where a race is wanted, and may not be
///   there where none is. It is an object with the fields `turns`, an integer, `keeper`, an array of ops, and
///   `callers`, an array of such arrays, and with no other. In `keeper` stand the ops `tick`, `check`,
///   `finalize` and `notify` alone. In the lists of the callers stand all ops but `tick`, `check`, `finalize`,
///   `serve`, `advance`, `deliver` and `turn`.
///
/// An integer is written without a fraction or an exponent, and fits 64 bits. Where a key is repeated, its
/// last value counts.
pub fn read_scenario(alloc: Global, bytes: &[u8], race: bool) -> Result<Scenario, ScenarioErr>
    ensures ok { IfOk result (λ s. IsScenario race bytes.now (plan_of s)) }

    // Out of memory may come in place of any answer.
    ensures err { IfErr result (λ e. e ≢ ScenarioErr.NoMemory → HasRefusal race bytes.now e) }
{
    if !race {
        if let Some(scenario) = read_quickly(alloc, bytes)? {
            return Ok(scenario);
        }
    }
    read_slowly(alloc, bytes, race)
}

/// The same, by way of a value.
fn read_slowly(alloc: Global, bytes: &[u8], race: bool) -> Result<Scenario, ScenarioErr>
    ensures ok { IfOk result (λ s. IsScenario race bytes.now (plan_of s)) }
    ensures err { IfErr result (λ e. e ≢ ScenarioErr.NoMemory → HasRefusal race bytes.now e) }
{
    match Value::from_slice(alloc, bytes) {
        Ok(value) => scenario_of(alloc, &value, race),
        Err(e) if e.is_memory() => Err(ScenarioErr::NoMemory),
        Err(_) => Err(ScenarioErr::Json),
    }
}

/// The scenario that a value is.
#[tactic(auto, unfolding(crate::specs::Scenarios::verdict_of))]
fn scenario_of(alloc: Global, value: &Value, race: bool) -> Result<Scenario, ScenarioErr>
    ensures ok { IfOk result (λ s. verdict_of race (view value.now) ≡ Ok (plan_of s)) }
    ensures err { IfErr result (λ e. e ≢ ScenarioErr.NoMemory → verdict_of race (view value.now) ≡ Err e) }
{
    match lists_found(value, race) {
        Ok(lists) => judge(alloc, top_of(value, race), format_of(value), &lists),
        Err(_) => Err(ScenarioErr::Shape(0)),
    }
}

/// Judges what was found at place 0, and the ops of the lists.
fn judge(
    alloc: Global,
    top: Result<Top, Fault>,
    format: Format,
    lists: &Lists,
) -> Result<Scenario, ScenarioErr>
    ensures ok { IfOk result (λ s. let seen = lists_seen lists.now in
        judged format seen top (founds_of top (all_raws format seen)) ≡ Ok (plan_of s)) }
    ensures err { IfErr result (λ e. let seen = lists_seen lists.now in
        e ≢ ScenarioErr.NoMemory → judged format seen top (founds_of top (all_raws format seen)) ≡ Err e) }
{
    match top {
        Ok(top) => scenario_with(alloc, top, format, lists),
        Err(Fault::Range) => {
            scan(alloc, format, lists)?;
            Err(ScenarioErr::Range(0))
        }
        Err(Fault::Shape) => Err(ScenarioErr::Shape(0)),
    }
}

/// The scenario with these settings and the ops of the lists.
#[tactic(auto, using(crate::proofs::Judged::ends_walk, crate::proofs::Judged::judged_range))]
fn scenario_with(
    alloc: Global,
    top: Top,
    format: Format,
    lists: &Lists,
) -> Result<Scenario, ScenarioErr>
    ensures ok { IfOk result (λ s. let seen = lists_seen lists.now in
        judged format seen (Ok top) (tested top.settings [] (all_raws format seen)) ≡ Ok (plan_of s)) }
    ensures err { IfErr result (λ e. let seen = lists_seen lists.now in
        e ≢ ScenarioErr.NoMemory → judged format seen (Ok top) (tested top.settings [] (all_raws format seen)) ≡ Err e) }
{
    let walk = scan(alloc, format, lists)?;
    if let Some(place) = first_range(alloc, &top.settings, &walk)? {
        return Err(ScenarioErr::Range(place));
    }
    if is_over(walk.ops.len(), lists.count(), top.turns) {
        return Err(ScenarioErr::Limit(0));
    }
    match scenario_from(alloc, top, lists, walk.ops) {
        Ok(scenario) => Ok(scenario),
        Err(_) => Err(ScenarioErr::NoMemory),
    }
}

/// Whether there are more ops, callers' lists or turns than a scenario may have.
pub(crate) fn is_over(ops: usize, lists: usize, turns: u64) -> bool
    ensures { result ≡ is_over ops lists turns }
{
    ops > MOST_OPS as usize || lists > MOST_LISTS as usize || turns > MOST_TURNS as u64
}

/// The place of the first range fault of the ops.
pub(crate) fn first_range(
    alloc: Global,
    settings: &Settings,
    walk: &Walk,
) -> Result<Option<u32>, ScenarioErr>
    ensures ok { IfOk result (λ place. (all : List (FoundOrFault AnOp)) → IsOver walk.now.ops.items walk.now.range all
        → place ≡ first_range 1 (tested settings.now [] all)) }
    ensures err { IfErr result (λ e. e ≡ ScenarioErr.NoMemory) }
{
    let Ok(mut labels) = Labels::new(alloc) else {
        return Err(ScenarioErr::NoMemory);
    };
    Ok(first_out(&mut labels, settings, &walk.ops)?.or(walk.range))
}
