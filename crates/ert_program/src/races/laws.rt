//! Laws of what is done in a race, the contract of a function that does nothing, so that they are proved wherever
//! this crate is.

ghost use Rattle.ert_program.specs.Laws.{LawOfPieces, LawOfTurnPieces, LawOfReplies, LawOfAdvancesInTurns, LawOfAdvancesInRound};

/// What an actor did in a stretch beside others is there whole, and nothing else: all of its entries are in the
/// pieces of its calls, each op has one reply, and each turn advances its wheel once, also in the last round.
pub fn lists_are_done_whole()
    ensures pieces { LawOfPieces }
    ensures turns { LawOfTurnPieces }
    ensures replies { LawOfReplies }
    ensures advances { LawOfAdvancesInTurns }
    ensures rounds { LawOfAdvancesInRound }
{}
