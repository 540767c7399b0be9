//! Which answers the entries of a call tell, of the calls of several locked steps and of an asynchronous request: laws,
//! each the contract of a function that does nothing.
//!
//! Of the calls with one locked step `laws` says that the same entries have one answer. These go on to `serve`, `deliver`,
//! `turn`, `exit` and `ask`: they name the answer that the entries tell (`specs/Told`). So many requests were served as
//! entries answer one, so many timers expired as entries expire one, and so on. Each holds in both ways in which a call
//! comes about: alone, of the piece by which the history grows, and beside others, of the entries that the call's actor
//! has in it.

ghost use Rattle.ert_effects.specs.Told.{LawOfToldServes, LawOfToldDeliveries, LawOfToldTurns, LawOfToldExits, LawOfToldAsks};

/// What a scheduler answers is told by the entries that it makes: `serve` whether a request was served, `deliver`
/// how many messages were put and how many thrown away, `turn` all of that, the time to which the wheel was
/// advanced, and how many timers expired.
pub fn turns_are_told()
    ensures serves { LawOfToldServes }
    ensures deliveries { LawOfToldDeliveries }
    ensures turns { LawOfToldTurns }
{}

/// Whether a process had not exited before is told by the entries of `exit`: just then one of them marks such an
/// exit.
pub fn exits_are_told()
    ensures { LawOfToldExits }
{}

/// Whether there was memory for a request is told by the entries of `ask`: just then one of them asks.
pub fn asks_are_told()
    ensures { LawOfToldAsks }
{}
