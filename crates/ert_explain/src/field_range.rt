//! Which field of a scenario is out of its range.
ghost use Rattle.std.specs.Prelude.{◌≡◌, map, pos, negsuc};
ghost use Rattle.serde_json.specs.View.{view};
ghost use Rattle.ert_explain.specs.FieldRanges.{outside, field_number, counts_given, is_part, fields_range, sizes_range, slots_range, start_range, reading_range, item_range, turns_range};

use crate::field::Field;
use crate::op_range::{Counts, Limits, is_out};
use crate::param::Param;
use crate::place::items_of;
use ert_defs::milliseconds::NANOSECONDS_PER_MILLISECOND;
use ert_scenario::limits::{
    MOST_PROCESSES, MOST_SCHEDULERS, MOST_SLOTS, MOST_SLOTS_IN_ALL, MOST_TURNS,
};
use serde_json::Value;

/// Which field of a scenario is out of its range: the first of these that is.
#[derive(Clone, Copy)]
pub enum FieldRange {
    /// The number of this field isn't within these limits.
    Outside(Field, Limits),
    /// There are more than `MOST_SLOTS_IN_ALL` slots in all wheels together.
    ManySlots,
    /// The start time is no multiple of 1,000,000.
    PartOfMillisecond,
    /// A number of the first reading isn't within these limits.
    Reading(Param, Limits),
}

/// The latest start time: 2^58.
const LATEST: i64 = 288_230_376_151_711_744;

/// The first field that is out of its range, if any is.
pub(crate) fn fields_range(value: &Value, race: bool) -> Option<FieldRange>
    ensures { result ≡ fields_range race (view value.now) }
{
    outside(value, Field::Format, 1, 2)
        .or(sizes_range(value))
        .or(start_range(value))
        .or(reading_range(items_of(value.get("first"))))
        .or(turns_range(value, race))
}

/// The number of a field, where it isn't within limits.
#[tactic(auto, unfolding(crate::specs::FieldRanges::outside))]
fn outside(value: &Value, field: Field, least: i64, greatest: i64) -> Option<FieldRange>
    ensures { result ≡ outside field least greatest (view value.now) }
{
    let limits = Limits { least, greatest };
    match value.get(field.name()) {
        Some(it) if is_out(limits, it) => Some(FieldRange::Outside(field, limits)),
        _ => None,
    }
}

/// The counts.
#[tactic(auto, unfolding(crate::specs::FieldRanges::sizes_range))]
fn sizes_range(value: &Value) -> Option<FieldRange>
    ensures { result ≡ sizes_range (view value.now) }
{
    outside(value, Field::Schedulers, 1, MOST_SCHEDULERS as i64)
        .or(outside(value, Field::Processes, 1, MOST_PROCESSES as i64))
        .or(outside(value, Field::Slots, 1, MOST_SLOTS as i64))
        .or(slots_range(
            number_at(value, Field::Schedulers, 1),
            number_at(value, Field::Slots, 1024),
        ))
}

/// The slots of all wheels together, where both counts are within their limits.
#[tactic(auto, unfolding(crate::specs::FieldRanges::slots_range))]
fn slots_range(schedulers: i64, slots: i64) -> Option<FieldRange>
    ensures { result ≡ slots_range schedulers slots }
{
    match schedulers.checked_mul(slots) {
        Some(all) if all > MOST_SLOTS_IN_ALL as i64 => Some(FieldRange::ManySlots),
        _ => None,
    }
}

/// The integer that a field is; this one where it is absent, and 0 where it is no integer.
#[tactic(auto, unfolding(crate::specs::FieldRanges::field_number))]
pub(crate) fn number_at(value: &Value, field: Field, absent: i64) -> i64
    ensures { result ≡ field_number field absent (view value.now) }
{
    match value.get(field.name()) {
        Some(it) => it.as_i64().unwrap_or(0),
        None => absent,
    }
}

/// How many schedulers and processes a value says.
pub(crate) fn counts_of(value: &Value) -> Counts
    ensures { result ≡ counts_given (view value.now) }
{
    Counts {
        schedulers: number_at(value, Field::Schedulers, 1),
        processes: number_at(value, Field::Processes, 1),
    }
}

/// The start time.
#[tactic(auto, unfolding(crate::specs::FieldRanges::start_range))]
fn start_range(value: &Value) -> Option<FieldRange>
    ensures { result ≡ start_range (view value.now) }
{
    outside(value, Field::Start, -LATEST, LATEST).or(is_part(number_at(value, Field::Start, 0)))
}

/// A time that is no multiple of 1,000,000.
fn is_part(start: i64) -> Option<FieldRange>
    ensures { result ≡ is_part start }
{
    if start.rem_euclid(NANOSECONDS_PER_MILLISECOND) == 0 {
        None
    } else {
        Some(FieldRange::PartOfMillisecond)
    }
}

/// The first reading.
fn reading_range(items: &[Value]) -> Option<FieldRange>
    ensures { result ≡ reading_range (map view items.now) }
{
    match items {
        [mono, sys] => mono_range(mono).or(sys_range(sys)),
        _ => None,
    }
}

/// The monotonic time of a reading.
fn mono_range(mono: &Value) -> Option<FieldRange>
    ensures { result ≡ item_range Param.Mono (pos 0) (pos 4611686018427387903) (view mono.now) }
{
    item_range(Param::Mono, 0, 4_611_686_018_427_387_903, mono)
}

/// Its system time.
fn sys_range(sys: &Value) -> Option<FieldRange>
    ensures { result ≡ item_range Param.Sys (negsuc 2305843009213693950) (pos 2305843009213693951) (view sys.now) }
{
    item_range(
        Param::Sys,
        -2_305_843_009_213_693_951,
        2_305_843_009_213_693_951,
        sys,
    )
}

/// A number of a reading, where it isn't within limits.
fn item_range(param: Param, least: i64, greatest: i64, item: &Value) -> Option<FieldRange>
    ensures { result ≡ item_range param least greatest (view item.now) }
{
    let limits = Limits { least, greatest };
    if is_out(limits, item) {
        Some(FieldRange::Reading(param, limits))
    } else {
        None
    }
}

/// The turns of a race.
#[tactic(auto, unfolding(crate::specs::FieldRanges::turns_range))]
fn turns_range(value: &Value, race: bool) -> Option<FieldRange>
    ensures { result ≡ turns_range race (view value.now) }
{
    match value.get("race") {
        Some(it) if race => outside(it, Field::Turns, 0, MOST_TURNS as i64),
        _ => None,
    }
}
