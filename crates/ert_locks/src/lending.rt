//! A part behind a lock is lent to a seat for one call. Each call of a service goes through this one method.
use crate::allowed::Allowed;
use crate::desk_part::DeskPart;
use crate::locked::{Locked, meet};
use crate::names::DeskName;
use ert_table::{Desk, Pass};

impl<P: DeskPart + Drop, L: DeskName> Locked<P, L> {
    ghost use Rattle.std.specs.Prelude.{◌≡◌, ℕ, false};
    ghost use Rattle.ert_defs.specs.Actors.{same_actor};
    ghost use Rattle.ert_locks.specs.{Kinds.PartFits, Lent.{MayCall, CallLeaves, IsCalled, HasActor}, Names.IsDesk, Passes.StepsWith};
    ghost use Rattle.ert_table.specs.Desks.{front_of};

    /// Makes a call of the part for the holder of a seat. The pass of the seat meets that of the part, the call
    /// makes its steps with both actors, and then each pass has its own actor again.
    ///
    /// `own` is what the seat has beside its pass: the number of a caller, or the part of a scheduler.
    #[inline(always)]
    pub(crate) fn lend<C: Allowed<A>, S: DeskPart, A, F: FnOnce(&mut P, &mut Pass, &mut S) -> A>(
        &mut self,
        desk: &Desk,
        own: &mut S,
        seat: &mut Pass,
        call: F,
    ) -> A
        requires desk { IsDesk L.table L.settings desk.now }
        requires fits { PartFits L.table L.settings S.kind own.old seat.old }
        requires apart { (n m : ℕ) → same_actor (P.kind.actor n) (S.kind.actor m) ≡ false }
        requires may { MayCall F.FnOnce call desk.now P.kind S.kind self.old own.old (front_of seat.old) }
        requires leaves { CallLeaves F.FnOnce call desk.now P.kind S.kind self.old own.old (front_of seat.old) C.allows }
        requires own { HasActor C.allows S.kind.actor }
        ensures same { self.new ≡ self.old }
        ensures number { S.kind.number own.new ≡ S.kind.number own.old }
        ensures fits { PartFits L.table L.settings S.kind own.new seat.new }
        ensures call { (n : ℕ) → self.old ≡ n → StepsWith L.settings (S.kind.actor (S.kind.number own.old)) (P.kind.actor n)
            (C.allows L.settings (S.kind.number own.old) n result) seat.old seat.new }
        ensures called { IsCalled F.FnOnce call desk.now P.kind S.kind self.old own.old (front_of seat.old) result own.new (front_of seat.new) }
    {
        let actor = own.own_actor();
        meet::<P, S, L>(desk, &self.part, &mut self.pass, own, seat);
        let answer = call(&mut self.part, &mut self.pass, own);
        *seat = self.pass.split(desk, actor);
        answer
    }
}
