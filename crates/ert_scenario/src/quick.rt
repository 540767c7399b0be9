//! The quick way to a scenario: one pass over the tokens of a text, which keeps the ops and no tree of values.
//! It gives nothing wherever anything is unusual, and says nothing of faults.

ghost use Rattle.std.specs.Prelude.{◌≡◌, [], false, Some, IsTrue, IfOk, IfErr, IfSome};
ghost use Rattle.json.specs.Json.{value as json_value};
ghost use Rattle.serde_json.specs.{Data.{Members, object}, Read.{read, of_json, converted}};
ghost use Rattle.ert_scenario.specs.{QuickMembers.{IsSeenAs, IsPlanOf, IsPlanWith, plan_for_one}, Scenarios.{plan_of, IsScenario}};

mod members;
mod ops;
mod tokens;

use self::members::{Seen, read_object};
use crate::fields::{Top, top_of};
use crate::format::{Format, format_of};
use crate::limits::MOST_OPS;
use crate::scenario::{Scenario, ScenarioErr, first_range, is_over};
use crate::walk::Walk;
use ert_defs::Settings;
use ert_ops::Op;
use json::{Reader, Scratch};
use serde_json::Value;
use std::alloc::{AllocError, Global};

/// No op is written in fewer bytes, with the comma after it.
const OP_BYTES: usize = 9;

/// The scenario without a race that bytes are. There is none where they are no such scenario, and where they are
/// one that is written in an unusual way.
pub(crate) fn read_quickly(alloc: Global, bytes: &[u8]) -> Result<Option<Scenario>, ScenarioErr>
    ensures ok { IfOk result (λ o. IfSome o (λ s. IsScenario false bytes.now (plan_of s))) }
    ensures err { IfErr result (λ e. e ≡ ScenarioErr.NoMemory) }
{
    let Ok(text) = simdutf8::basic::from_utf8(bytes) else {
        return Ok(None);
    };
    match read_seen(alloc, text) {
        Ok(Some(seen)) => scenario_of(alloc, seen),
        Ok(None) => Ok(None),
        Err(_) => Err(ScenarioErr::NoMemory),
    }
}

/// The members of the object that a text is.
fn read_seen(alloc: Global, text: &str) -> Result<Option<Seen>, AllocError>
    ensures { IfOk result (λ o. IfSome o (λ seen. (all : Members)
        × (read text.now ≡ Some (object all)) × IsSeenAs seen all)) }
{
    let mut scratch = Scratch::new(alloc);
    let mut reader = Reader::new(text, &mut scratch)?;
    let room = (MOST_OPS as usize).min(text.len() / OP_BYTES);
    read_whole(alloc, &mut reader, room)
}

/// The members of the object that all tokens together are, with room for so many ops.
fn read_whole(
    alloc: Global,
    reader: &mut Reader<'_>,
    room: usize,
) -> Result<Option<Seen>, AllocError>
    ensures { IfOk result (λ o. IfSome o (λ seen. (all : Members)
        × (converted of_json (json_value 127 reader.old) ≡ Some (object all, [])) × IsSeenAs seen all)) }
{
    let Some(seen) = read_object(alloc, reader, room)? else {
        return Ok(None);
    };
    match reader.next() {
        Some(_) => Ok(None),
        None => Ok(Some(seen)),
    }
}

/// The scenario of these members.
fn scenario_of(alloc: Global, seen: Seen) -> Result<Option<Scenario>, ScenarioErr>
    ensures ok { IfOk result (λ o. IfSome o (λ s. IsPlanOf seen (plan_of s))) }
    ensures err { IfErr result (λ e. e ≡ ScenarioErr.NoMemory) }
{
    let Seen {
        fields,
        format,
        ops,
        ..
    } = seen;
    let value = Value::Object(fields);
    match top_of(&value, false) {
        Ok(top) if is_format(format, format_of(&value)) => scenario_with(alloc, top, ops),
        _ => Ok(None),
    }
}

/// Whether there is a format, and it is this one.
fn is_format(format: Option<Format>, other: Format) -> bool
    ensures { IsTrue result → format ≡ Some other }
{
    match format {
        Some(Format::One) => matches!(other, Format::One),
        Some(Format::Two) => matches!(other, Format::Two),
        None => false,
    }
}

/// The scenario with these settings and ops.
fn scenario_with(alloc: Global, top: Top, ops: Vec<Op>) -> Result<Option<Scenario>, ScenarioErr>
    ensures ok { IfOk result (λ o. IfSome o (λ s. IsPlanWith top ops.items (plan_of s))) }
    ensures err { IfErr result (λ e. e ≡ ScenarioErr.NoMemory) }
{
    let walk = Walk {
        ops,
        range: None,
        place: 1,
    };
    if first_range(alloc, &top.settings, &walk)?.is_some()
        || is_over(walk.ops.len(), 0, top.turns)
    {
        return Ok(None);
    }
    Ok(Some(scenario_without_race(top, walk.ops)))
}

/// The scenario with these settings, for one caller.
fn scenario_without_race(top: Top, ops: Vec<Op>) -> Scenario
    ensures { plan_of result ≡ plan_for_one top.settings ops.items }
{
    Scenario {
        settings: Settings {
            callers: 1,
            ..top.settings
        },
        ops,
        race: None,
    }
}
