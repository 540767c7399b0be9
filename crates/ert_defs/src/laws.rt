//! The laws of histories that don't concern the clock's numbers. Each is the contract of a function that
//! does nothing, so that it is proved wherever this crate is.

ghost use Rattle.std.specs.Prelude.{◌≡◌, pos};
ghost use Rattle.ert_defs.specs.Laws.{LawOfPrefixes, LawOfParts, LawOfOneMore, LawOfStates, LawOfLocality, LawOfMoves, LawOfSettling, LawOfSettled, LawOfRows, LawOfSlots};

use crate::milliseconds::{LAST_DEADLINE, NANOSECONDS_PER_MILLISECOND};
use crate::settings::{
    MOST_CALLERS, MOST_CHAINS, MOST_PROCESSES, MOST_SCHEDULERS, MOST_SLOTS, MOST_SLOTS_IN_ALL,
    SCENARIO_LOOKS,
};
use crate::timer::{FIRST_LATER_GENERATION, USES_OF_ROUND};

/// The limits of a service: of its counts, of how long it may run, and of a slot's generations, and how many slots a
/// start of a scenario looks at.
pub fn limits_are_fixed()
    ensures schedulers { MOST_SCHEDULERS ≡ 1024 }
    ensures processes { MOST_PROCESSES ≡ 524288 }
    ensures chains { MOST_CHAINS ≡ 67108864 }
    ensures slots { MOST_SLOTS ≡ 16777216 }
    ensures slots_in_all { MOST_SLOTS_IN_ALL ≡ 67108864 }
    ensures callers { MOST_CALLERS ≡ 1025 }
    ensures looks { SCENARIO_LOOKS ≡ 131072 }
    ensures millisecond { NANOSECONDS_PER_MILLISECOND ≡ pos 1000000 }
    ensures deadline { LAST_DEADLINE ≡ 8796093022207 }
    ensures uses { USES_OF_ROUND ≡ 262143 }
    ensures later { FIRST_LATER_GENERATION ≡ 8796093022208 }
{}

/// A history is legal exactly where its beginning is and each further entry is legal in the state after
/// those before it.
pub fn prefixes_are_legal()
    ensures prefixes { LawOfPrefixes }
    ensures parts { LawOfParts }
    ensures one_more { LawOfOneMore }
    ensures states { LawOfStates }
{}

/// What an entry's maker knew after a beginning of a history holds on while no other entry has its actors:
/// there the entry is legal at the end, where its step finds out what it says.
pub fn entries_are_local()
    ensures { LawOfLocality }
{}

/// The status of a timer moves only from armed to expired, cancelled or orphaned, and from expired to
/// delivered or dropped. So a timer settles at most once, and the timers of a slot one after the other.
pub fn timers_settle_once()
    ensures moves { LawOfMoves }
    ensures once { LawOfSettling }
    ensures settled { LawOfSettled }
    ensures rows { LawOfRows }
    ensures slots { LawOfSlots }
{}
