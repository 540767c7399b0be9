ghost use Rattle.std.specs.Prelude.{◌≡◌};
ghost use Rattle.ert_ops.specs.Texts.{state_text, mode_text, bool_text};

use ert_defs::{Mode, OffsetState};

/// The word for a state of the offset.
#[tactic(auto, unfolding(ert_ops::specs::Texts::state_text))]
pub fn state_word(state: OffsetState) -> &'static str
    ensures { result.now ≡ state_text state }
{
    match state {
        OffsetState::Preliminary => "preliminary",
        OffsetState::Final => "final",
        OffsetState::Volatile => "volatile",
    }
}

/// The word for a time warp mode.
#[tactic(auto, unfolding(ert_ops::specs::Texts::mode_text))]
pub fn mode_word(mode: Mode) -> &'static str
    ensures { result.now ≡ mode_text mode }
{
    match mode {
        Mode::No => "no",
        Mode::Single => "single",
        Mode::Multi => "multi",
    }
}

/// The word for whether something is on.
#[tactic(auto, unfolding(ert_ops::specs::Texts::bool_text))]
pub fn bool_word(is_on: bool) -> &'static str
    ensures { result.now ≡ bool_text is_on }
{
    if is_on { "true" } else { "false" }
}
