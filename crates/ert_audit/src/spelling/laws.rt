//! Laws of the definitions, the contract of a function with no body.

ghost use Rattle.std.specs.Prelude.{◌≡◌, ℕ, List};
ghost use Rattle.ert_defs.specs.{Settings.IsChecked, declared.entry.Entry.Entry, declared.settings.Settings.Settings};
ghost use Rattle.ert_audit.specs.Spelling.{Spells, MisspelledAt};

/// Bytes spell one history at most, and are misspelled at one line at most. None are both, where the
/// history's settings are some that a service can be opened with, and none are neither. Each history has
/// one spelling, since `spelling` is a function.
pub fn one_spelling()
    ensures unique { (g other : Settings) (h others : List Entry) (bytes : List ℕ)
        → Spells g h bytes → Spells other others bytes → (g ≡ other) × (h ≡ others) }
    ensures never_both { (g : Settings) (h : List Entry) (bytes : List ℕ) (k : ℕ)
        → Spells g h bytes → IsChecked g → MisspelledAt bytes k → ⊥ }
    ensures never_neither { (bytes : List ℕ)
        → ((g : Settings) (h : List Entry) → Spells g h bytes → IsChecked g → ⊥)
        → ((k : ℕ) → MisspelledAt bytes k → ⊥) → ⊥ }
    ensures one_line { (bytes : List ℕ) (j k : ℕ)
        → MisspelledAt bytes j → MisspelledAt bytes k → j ≡ k }
{}
