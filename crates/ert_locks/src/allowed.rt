//! What entries a call may make, which the call picks. It stands in proofs alone.
ghost use Rattle.std.specs.Prelude.{◌≡◌, ℕ, []};
ghost use Rattle.ert_defs.specs.declared.settings.Settings.{Settings};
ghost use Rattle.ert_effects.specs.Ways.{Step};

use std::marker::Brand;

/// The step of a call, by the settings, the number of who makes it, the number of the part and the answer.
pub(crate) trait Allowed<A> {
    ghost allows: { Settings → ℕ → ℕ → A → Step };
}

impl<A> Allowed<A> for Brand {
    ghost allows = { λ g by n answer s es. es ≡ [] };
}
