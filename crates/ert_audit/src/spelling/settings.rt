//! Settings, and the parts that they and the events of the clock have.

ghost use Rattle.std.specs.Prelude.{◌≡◌};
ghost use Rattle.ert_audit.specs.{Cuts.{words_of, words_in}, Readers.{value_and_rest, whole}, Reading.{read_mode, read_state, read_act, read_reading}, Events.{read_fields, read_later_fields, read_settings}};

use crate::spelling::numbers::{integer, small};
use crate::spelling::words::{Words, next_text, truth};
use ert_defs::{Act, Mode, OffsetState, Reading, SCENARIO_LOOKS, Settings};

/// The settings that a line is.
#[tactic(auto, using(crate::proofs::Splits::something_left), unfolding(crate::specs::Events::read_settings))]
pub(crate) fn settings_of(line: &[u8]) -> Option<Settings>
    ensures { result ≡ whole read_settings (words_in line.now) }
{
    let mut words = Some(line);
    if next_text(&mut words)? != "settings" {
        return None;
    }
    let settings = fields(&mut words)?;
    match words {
        None => Some(settings),
        Some(_) => None,
    }
}

/// The fields of settings.
#[tactic(auto, unfolding(crate::specs::Events::read_fields))]
fn fields(words: &mut Words) -> Option<Settings>
    ensures { value_and_rest result words.new ≡ read_fields (words_of words.old) }
{
    let mode = mode(words)?;
    let correction = truth(words)?;
    let start = integer(words)?;
    let schedulers = small(words)?;
    later_fields(mode, correction, start, schedulers, words)
}

/// The fields of settings after these. The looks stand in no line, since no rule of a history speaks of them: they are
/// those of scenarios.
#[tactic(auto, unfolding(crate::specs::Events::read_later_fields))]
fn later_fields(
    mode: Mode,
    correction: bool,
    start: i64,
    schedulers: u32,
    words: &mut Words,
) -> Option<Settings>
    ensures { value_and_rest result words.new ≡ read_later_fields mode correction start schedulers (words_of words.old) }
{
    let processes = small(words)?;
    let slots = small(words)?;
    let callers = small(words)?;
    let first = reading(words)?;
    Some(Settings {
        mode,
        correction,
        start,
        schedulers,
        processes,
        slots,
        looks: SCENARIO_LOOKS,
        callers,
        first,
    })
}

/// A time warp mode.
#[tactic(auto, unfolding(crate::specs::Reading::read_mode))]
pub(crate) fn mode(words: &mut Words) -> Option<Mode>
    ensures { value_and_rest result words.new ≡ read_mode (words_of words.old) }
{
    match next_text(words)? {
        "no" => Some(Mode::No),
        "single" => Some(Mode::Single),
        "multi" => Some(Mode::Multi),
        _ => None,
    }
}

/// A reading of the clocks of the operating system.
#[tactic(auto, unfolding(crate::specs::Reading::read_reading))]
pub(crate) fn reading(words: &mut Words) -> Option<Reading>
    ensures { value_and_rest result words.new ≡ read_reading (words_of words.old) }
{
    let mono = integer(words)?;
    let sys = integer(words)?;
    Some(Reading { mono, sys })
}

/// What a tick is for.
#[tactic(auto, unfolding(crate::specs::Reading::read_act))]
pub(crate) fn act(words: &mut Words) -> Option<Act>
    ensures { value_and_rest result words.new ≡ read_act (words_of words.old) }
{
    match next_text(words)? {
        "plain" => Some(Act::Plain),
        "force" => Some(Act::Force),
        "finalize" => Some(Act::Finalize),
        _ => None,
    }
}

/// A state of the offset.
#[tactic(auto, unfolding(crate::specs::Reading::read_state))]
pub(crate) fn state(words: &mut Words) -> Option<OffsetState>
    ensures { value_and_rest result words.new ≡ read_state (words_of words.old) }
{
    match next_text(words)? {
        "preliminary" => Some(OffsetState::Preliminary),
        "final" => Some(OffsetState::Final),
        "volatile" => Some(OffsetState::Volatile),
        _ => None,
    }
}
