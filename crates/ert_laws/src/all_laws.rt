//! All laws of a history at once.

ghost use Rattle.ert_laws.specs.KeptLaws.{LawOfHistories};

/// Every legal history keeps the laws: monotonic time never falls, the clock and its offset move only as they may, no
/// timer expires early, each timer settles at most once, and mailboxes keep their order (`erlang` module reference,
/// `start_timer`; ERTS User's Guide, "Time and Time Correction in Erlang").
pub fn legal_histories_keep_the_laws()
    ensures { LawOfHistories }
{}
