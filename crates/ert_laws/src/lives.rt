//! The lives of timers.

ghost use Rattle.ert_defs.specs.Laws.{LawOfExpired, LawOfDelivery, LawOfDrop};
ghost use Rattle.ert_laws.specs.Lives.{LawOfLives, LawOfMovers, LawOfWaiting};

/// The life of a timer is one of six: armed; armed, cancelled; armed, orphaned; armed, expired; armed, expired,
/// delivered; armed, expired, dropped. It is read off the entries that start the timer, cancel it with an
/// answer, and let it expire and so on, and no other entry changes the timer's status (`erlang` module
/// reference, `start_timer` and `cancel_timer`).
pub fn timers_have_six_lives()
    ensures lives { LawOfLives }
    ensures movers { LawOfMovers }
{}

/// The list of a scheduler has just the expired timers of its wheel. Each is the last of its slot, and stands
/// there once. So a delivery or a drop never misses.
pub fn expired_timers_wait_once()
    ensures lists { LawOfExpired }
    ensures waiting { LawOfWaiting }
    ensures delivery { LawOfDelivery }
    ensures drop { LawOfDrop }
{}
