//! What the definition of an advance with a bound says of entries that were judged by hand.

ghost use Rattle.std.specs.Prelude.{pos, [], ◌∷◌, Ok};
ghost use Rattle.ert_defs.specs.{Entries.look_entry, States.state, declared.entry.Actor.TheVariants.Sched};
ghost use Rattle.ert_effects.specs.{SomeCalls.AdvancesSome, declared.answers.Left.TheVariants.{Nothing, Due, Moving}, Worked.{one, asked_at_once, advancing}};

/// An advance that tries one timer at most ends with its record, or says that more are due after that many tries: not
/// before it has tried one, and not after it has tried more than it may. Where rows have to move it may have tried none. The
/// time that it tells is that of its look, whatever it says of more.
pub fn bounded_advances_are_judged()
    ensures ended { AdvancesSome one 0 1 (Ok (1, 1, Nothing)) (state one asked_at_once) advancing }
    ensures idle { (now : _) → AdvancesSome one 0 1 (Ok (1, 0, Due)) (state one asked_at_once) (look_entry (Sched 0) now ∷ []) → ⊥ }
    ensures moving { AdvancesSome one 0 1 (Ok (1, 0, Moving)) (state one asked_at_once) (look_entry (Sched 0) (pos 1000000) ∷ []) }
    ensures another_time { AdvancesSome one 0 0 (Ok (2, 0, Due)) (state one asked_at_once) (look_entry (Sched 0) (pos 1000000) ∷ []) → ⊥ }
    ensures too_many { AdvancesSome one 0 0 (Ok (1, 1, Nothing)) (state one asked_at_once) advancing → ⊥ }
{}
