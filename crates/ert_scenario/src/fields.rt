//! The fields of a scenario but for its lists of ops: the settings, and the turns of a race.

ghost use Rattle.std.specs.Prelude.{◌≡◌, option_map, string_bytes};
ghost use Rattle.std.specs.{BTreeMap.keys, List.list_all};
ghost use Rattle.serde_json.specs.View.{view};
ghost use Rattle.ert_scenario.specs.{Fields.{clock_fields, other_fields, race_fields, is_field, is_among, only_named, modes_by_name, start_time, time_warp_mode, time_correction, count, start_and_first, modes, one_or_two, clock_fields_of}};
ghost use Rattle.ert_scenario.specs.{Fields.{sizes_of, head_of, settings_with, settings_from, race_turns, top_of}, Kinds.called, Ranges.{has_counts, is_checked}};

use crate::fault::Fault;
use crate::kinds::{boolean, both, count_of, in_range, integer, present, reading, text, word};
use crate::limits::{MOST_CALLERS, MOST_PROCESSES, MOST_SCHEDULERS, MOST_SLOTS, MOST_SLOTS_IN_ALL};
use ert_defs::{Mode, Reading, SCENARIO_LOOKS, Settings};
use serde_json::{Map, Value};

/// What stands at place 0 beside the lists of ops.
#[derive(Clone, Copy)]
pub(crate) struct Top {
    /// Those that a service is opened with, for one caller.
    pub(crate) settings: Settings,
    /// How many turns each scheduler makes in a race; 0 where none is wanted.
    pub(crate) turns: u64,
}

/// The fields that settings are made of, not yet tested for their ranges.
#[derive(Clone, Copy)]
pub(crate) struct Head {
    clock: ClockFields,
    sizes: Sizes,
}

/// The fields of the clock.
#[derive(Clone, Copy)]
pub(crate) struct ClockFields {
    start: i64,
    first: Reading,
    mode: Mode,
    correction: bool,
}

/// How many schedulers, processes, and timer slots of each scheduler there are.
#[derive(Clone, Copy)]
pub(crate) struct Sizes {
    schedulers: u32,
    processes: u32,
    slots: u32,
}

/// What stands at place 0 beside the lists of ops, with the turns of a race where one is wanted.
#[tactic(auto, unfolding(crate::specs::Fields::top_of))]
pub(crate) fn top_of(value: &Value, race: bool) -> Result<Top, Fault>
    ensures { result ≡ top_of race (view value.now) }
{
    let settings = settings_of(value, race);
    if !race {
        return settings.map(|settings| Top { settings, turns: 0 });
    }
    let (settings, turns) = both(settings, race_turns(value.get("race")))?;
    Ok(Top { settings, turns })
}

/// The settings that a value gives, for one caller.
#[tactic(auto, unfolding(crate::specs::Fields::settings_from))]
fn settings_of(value: &Value, race: bool) -> Result<Settings, Fault>
    ensures { result ≡ settings_from race (view value.now) }
{
    let head = head_of(value, race)?;
    let settings = settings_with(head);
    in_range(is_checked(settings), settings)
}

/// How many turns each scheduler makes in a race, which has no other fields than its own.
#[tactic(auto, unfolding(crate::specs::Fields::race_turns))]
fn race_turns(value: Option<&Value>) -> Result<u64, Fault>
    ensures { result ≡ race_turns (option_map (λ v. view v.now) value.entry) }
{
    let race = present(value)?;
    let ((), turns) = both(only_race_fields(race), count_of(race.get("turns")))?;
    Ok(turns)
}

/// The fields that settings are made of, of an object that has the right fields and a format.
fn head_of(value: &Value, race: bool) -> Result<Head, Fault>
    ensures { result ≡ head_of race (view value.now) }
{
    let fields = both(clock_of(value), sizes_of(value));
    let names = both(only_fields(value, race), one_or_two(value.get("format")));
    let (((), ()), (clock, sizes)) = both(names, fields)?;
    Ok(Head { clock, sizes })
}

/// The format, which is 1 or 2.
#[tactic(auto, unfolding(crate::specs::Fields::one_or_two))]
fn one_or_two(value: Option<&Value>) -> Result<(), Fault>
    ensures { result ≡ one_or_two (option_map (λ v. view v.now) value.entry) }
{
    let format = integer(value)?;
    in_range(format == 1 || format == 2, ())
}

/// The fields of the clock.
#[tactic(auto, unfolding(crate::specs::Fields::clock_fields_of))]
fn clock_of(value: &Value) -> Result<ClockFields, Fault>
    ensures { result ≡ clock_fields_of (view value.now) }
{
    let ((start, first), (mode, correction)) = both(times(value), modes(value))?;
    Ok(ClockFields {
        start,
        first,
        mode,
        correction,
    })
}

/// The start time and the first reading.
#[tactic(auto, unfolding(crate::specs::Fields::start_and_first))]
fn times(value: &Value) -> Result<(i64, Reading), Fault>
    ensures { result ≡ start_and_first (view value.now) }
{
    both(start_time(value.get("start")), reading(value.get("first")))
}

/// The time warp mode and the time correction.
#[tactic(auto, unfolding(crate::specs::Fields::modes))]
fn modes(value: &Value) -> Result<(Mode, bool), Fault>
    ensures { result ≡ modes (view value.now) }
{
    both(
        time_warp_mode(value.get("mode")),
        time_correction(value.get("correction")),
    )
}

/// The counts.
#[tactic(auto, unfolding(crate::specs::Fields::sizes_of))]
fn sizes_of(value: &Value) -> Result<Sizes, Fault>
    ensures { result ≡ sizes_of (view value.now) }
{
    let schedulers = count(1, value.get("schedulers"));
    let processes = count(1, value.get("processes"));
    let slots = count(1024, value.get("slots"));
    let (schedulers, (processes, slots)) = both(schedulers, both(processes, slots))?;
    Ok(Sizes {
        schedulers,
        processes,
        slots,
    })
}

/// A count, which is this one where it is absent.
#[tactic(auto, unfolding(crate::specs::Fields::count))]
fn count(absent: u32, value: Option<&Value>) -> Result<u32, Fault>
    ensures { result ≡ count absent (option_map (λ v. view v.now) value.entry) }
{
    match value {
        None => Ok(absent),
        Some(_) => word(value),
    }
}

/// The start time, which is 0 where it is absent.
#[tactic(auto, unfolding(crate::specs::Fields::start_time))]
fn start_time(value: Option<&Value>) -> Result<i64, Fault>
    ensures { result ≡ start_time (option_map (λ v. view v.now) value.entry) }
{
    match value {
        None => Ok(0),
        Some(_) => integer(value),
    }
}

/// The time warp mode, which is no where it is absent.
#[tactic(auto, unfolding(crate::specs::Fields::time_warp_mode))]
fn time_warp_mode(value: Option<&Value>) -> Result<Mode, Fault>
    ensures { result ≡ time_warp_mode (option_map (λ v. view v.now) value.entry) }
{
    match value {
        None => Ok(Mode::No),
        Some(_) => mode_called(text(value)?),
    }
}

/// The time warp mode of this name.
fn mode_called(name: &str) -> Result<Mode, Fault>
    ensures { result ≡ called name.now modes_by_name }
{
    match name {
        "no" => Ok(Mode::No),
        "single" => Ok(Mode::Single),
        "multi" => Ok(Mode::Multi),
        _ => Err(Fault::Shape),
    }
}

/// Whether time correction is on, as it is where this is absent.
#[tactic(auto, unfolding(crate::specs::Fields::time_correction))]
fn time_correction(value: Option<&Value>) -> Result<bool, Fault>
    ensures { result ≡ time_correction (option_map (λ v. view v.now) value.entry) }
{
    match value {
        None => Ok(true),
        Some(_) => boolean(value),
    }
}

/// An object that has no other members than fields.
#[tactic(auto, using(crate::proofs::Members::are_named_view), unfolding(crate::specs::Fields::only_named, crate::specs::Kinds::of_kind))]
fn only_fields(value: &Value, race: bool) -> Result<(), Fault>
    ensures { result ≡ only_named (is_field race) (view value.now) }
{
    match value.as_object() {
        Some(members) if are_fields(members, race) => Ok(()),
        _ => Err(Fault::Shape),
    }
}

/// The same of the value of the field `race`.
#[tactic(auto, using(crate::proofs::Members::are_named_view), unfolding(crate::specs::Fields::only_named, crate::specs::Kinds::of_kind))]
fn only_race_fields(value: &Value) -> Result<(), Fault>
    ensures { result ≡ only_named (is_among race_fields) (view value.now) }
{
    match value.as_object() {
        Some(members) if are_race_fields(members) => Ok(()),
        _ => Err(Fault::Shape),
    }
}

/// Whether each member of an object is a field of a scenario, and `race` one of them only where this says so.
pub fn are_fields(members: &Map<String, Value>, race: bool) -> bool
    ensures { result ≡ list_all (λ name. is_field race (string_bytes name)) (keys members.now) }
{
    members.keys().all(|name| is_field(name.as_str(), race))
}

/// Whether each member of an object is a field of a race.
pub fn are_race_fields(members: &Map<String, Value>) -> bool
    ensures { result ≡ list_all (λ name. is_among race_fields (string_bytes name)) (keys members.now) }
{
    members.keys().all(|name| is_race_field(name.as_str()))
}

/// Whether it is the name of a field; `race` is one where a race is wanted.
pub fn is_field(name: &str, race: bool) -> bool
    ensures { result ≡ is_field race name.now }
{
    is_clock_field(name) || is_other_field(name) || (race && name == "race")
}

/// Whether it is the name of a field of a race.
pub fn is_race_field(name: &str) -> bool
    ensures { result ≡ is_among race_fields name.now }
{
    matches!(name, "turns" | "keeper" | "callers")
}

/// Whether it is the name of a field that is neither of the clock nor `race`.
fn is_other_field(name: &str) -> bool
    ensures { result ≡ is_among other_fields name.now }
{
    matches!(
        name,
        "schedulers" | "processes" | "slots" | "format" | "ops"
    )
}

/// Whether it is the name of a field of the clock.
fn is_clock_field(name: &str) -> bool
    ensures { result ≡ is_among clock_fields name.now }
{
    matches!(name, "mode" | "correction" | "start" | "first")
}

/// The settings that the fields give, for one caller.
fn settings_with(head: Head) -> Settings
    ensures { result ≡ settings_with head }
{
    Settings {
        mode: head.clock.mode,
        correction: head.clock.correction,
        start: head.clock.start,
        schedulers: head.sizes.schedulers,
        processes: head.sizes.processes,
        slots: head.sizes.slots,
        looks: SCENARIO_LOOKS,
        callers: 1,
        first: head.clock.first,
    }
}

/// Whether a scenario can have the settings: a service can be opened with them, and the counts are within the limits
/// of scenarios, which are narrower.
#[tactic(auto, using(crate::proofs::Checked::is_ok_check))]
fn is_checked(settings: Settings) -> bool
    ensures { result ≡ is_checked settings }
{
    settings.check().is_ok() && is_small(&settings)
}

/// Whether the counts are within the limits of scenarios.
#[tactic(auto, unfolding(crate::specs::Ranges::has_counts))]
fn is_small(settings: &Settings) -> bool
    ensures { result ≡ has_counts settings.now }
{
    let slots = settings.schedulers as u64 * settings.slots as u64;
    1 <= settings.schedulers
        && settings.schedulers <= MOST_SCHEDULERS
        && 1 <= settings.processes
        && settings.processes <= MOST_PROCESSES
        && 1 <= settings.slots
        && settings.slots <= MOST_SLOTS
        && slots <= MOST_SLOTS_IN_ALL as u64
        && 1 <= settings.looks
        && 1 <= settings.callers
        && settings.callers <= MOST_CALLERS
}
