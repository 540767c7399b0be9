//! What holds of every reason: the contract of a function with no body.

ghost use Rattle.ert_defs.specs.{Legal.Can, States.State, declared.entry.Entry.Entry, declared.settings.Settings.Settings};
ghost use Rattle.ert_judge.specs.{Reasons.IsFirstReason, declared.reasons.Reason.Reason};

/// In no state can an entry follow of which a reason holds.
pub fn reasons_exclude()
    ensures { (g : Settings) (s : State) (e : Entry) (r : Reason) → IsFirstReason g s e r → Can g s e → ⊥ }
{}
