//! The lists of ops of a scenario, as they stand in its value.

ghost use Rattle.std.specs.Prelude.{◌≡◌, option_map};
ghost use Rattle.serde_json.specs.View.{view};
ghost use Rattle.ert_scenario.specs.{Kinds.found_map, Lists.{lists_seen, race_seen, lists_in, race_lists, lists_alone, lists_with_race, lists_found, list_count}};

use crate::fault::Fault;
use crate::kinds::{arrays, both, listed, present};
use serde_json::Value;

/// The values of the ops of a scenario.
#[derive(Clone, Copy)]
pub(crate) struct Lists<'a> {
    /// Those of the field `ops`.
    pub(crate) ops: &'a [Value],
    /// Those of the field `race`.
    pub(crate) race: Option<RaceItems<'a>>,
}

/// The values of the ops of a race.
#[derive(Clone, Copy)]
pub(crate) struct RaceItems<'a> {
    /// Those of the clock's thread.
    pub(crate) keeper: &'a [Value],
    /// An array for each caller.
    pub(crate) callers: &'a [Value],
}

/// The lists of a value, with those of a race where one is wanted.
#[tactic(auto, unfolding(crate::specs::Lists::lists_found))]
pub(crate) fn lists_found(value: &Value, race: bool) -> Result<Lists<'_>, Fault>
    ensures { found_map lists_seen result ≡ lists_found race (view value.now) }
{
    if race {
        lists_with_race(value)
    } else {
        lists_alone(value)
    }
}

/// The list `ops` alone.
fn lists_alone(value: &Value) -> Result<Lists<'_>, Fault>
    ensures { found_map lists_seen result ≡ lists_alone (view value.now) }
{
    match listed(value.get("ops")) {
        Ok(ops) => Ok(Lists { ops, race: None }),
        Err(fault) => Err(fault),
    }
}

/// The list `ops`, and those of the race.
#[tactic(auto, using(crate::proofs::Founds::both_seen))]
fn lists_with_race(value: &Value) -> Result<Lists<'_>, Fault>
    ensures { found_map lists_seen result ≡ lists_with_race (view value.now) }
{
    match both(listed(value.get("ops")), race_lists(value.get("race"))) {
        Ok((ops, race)) => Ok(Lists {
            ops,
            race: Some(race),
        }),
        Err(fault) => Err(fault),
    }
}

/// The lists of the value of the field `race`.
#[tactic(auto, unfolding(crate::specs::Lists::race_lists))]
fn race_lists(value: Option<&Value>) -> Result<RaceItems<'_>, Fault>
    ensures { found_map race_seen result ≡ race_lists (option_map (λ v. view v.now) value.entry) }
{
    match present(value) {
        Ok(race) => lists_in(race),
        Err(fault) => Err(fault),
    }
}

/// The lists of a race.
#[tactic(auto, using(crate::proofs::Founds::both_seen))]
fn lists_in(race: &Value) -> Result<RaceItems<'_>, Fault>
    ensures { found_map race_seen result ≡ lists_in (view race.now) }
{
    match both(listed(race.get("keeper")), arrays(race.get("callers"))) {
        Ok((keeper, callers)) => Ok(RaceItems { keeper, callers }),
        Err(fault) => Err(fault),
    }
}

impl Lists<'_> {
    /// How many callers' lists there are.
    pub(crate) fn count(&self) -> usize
        ensures { result ≡ list_count (lists_seen self.now).race }
    {
        match self.race {
            Some(race) => race.callers.len(),
            None => 0,
        }
    }
}
