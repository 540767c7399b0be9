//! A part behind its lock.
ghost use Rattle.ert_defs.specs.Legal.{Legal};
ghost use Rattle.ert_locks.specs.{Kinds.PartFits, Names.IsDesk, Passes.PartMeets};
ghost use Rattle.ert_table.specs.Desks.{settings_of, view_of, front_of, Belongs};

use crate::desk_part::DeskPart;
use crate::names::DeskName;
use ert_table::{Desk, Pass};
use std::marker::{Model, PhantomData};

/// A part of the desk that `L` names, with the pass that has its actor. Contracts see its number.
#[derive(Drop)]
pub struct Locked<P: DeskPart + Drop, L: DeskName> {
    pub(crate) part: P,
    pub(crate) pass: Pass,
    of: PhantomData<L>,
}

impl<P: DeskPart + Drop, L: DeskName> Model for Locked<P, L> {
    ghost use Rattle.std.specs.Prelude.{ℕ};
    ghost use Rattle.ert_locks.specs.Kinds.{PartFits};

    ghost Value = { ℕ };

    ghost view = { λ k. P.kind.number k.part };

    ghost invariant = { λ k. PartFits L.table L.settings P.kind k.part k.pass };
}

impl<P: DeskPart + Drop, L: DeskName> Locked<P, L> {
    ghost use Rattle.std.specs.Prelude.{◌≡◌};
    ghost use Rattle.ert_locks.specs.Kinds.{PartFits};

    /// The part with the pass that has its actor alone, for whose front it stands.
    pub fn new(part: P, pass: Pass) -> Locked<P, L>
        requires { PartFits L.table L.settings P.kind part pass }
        ensures { result ≡ P.kind.number part }
    {
        Locked {
            part,
            pass,
            of: PhantomData,
        }
    }

    /// The part and its pass.
    pub fn into_parts(self) -> (P, Pass)
        ensures fits { PartFits L.table L.settings P.kind result.0 result.1 }
        ensures number { P.kind.number result.0 ≡ self }
    {
        let Locked { part, pass, .. } = self;
        (part, pass)
    }

    /// The number of the part among its kind.
    pub fn number(&self) -> u32
        ensures { result ≡ self.now }
    {
        self.part.own_number()
    }
}

/// Takes the actor of a seat to the pass of a part, which then knows what both knew. The part and what the seat
/// has stand for that.
pub(crate) fn meet<P: DeskPart, S: DeskPart, L: DeskName>(
    desk: &Desk,
    part: &P,
    pass: &mut Pass,
    own: &S,
    seat: &mut Pass,
)
    requires desk { IsDesk L.table L.settings desk.now }
    requires fits { PartFits L.table L.settings P.kind part.now pass.old }
    requires own_fits { PartFits L.table L.settings S.kind own.now seat.old }
    ensures belongs { Belongs desk.now pass.new }
    ensures legal { Legal (settings_of desk.now) (front_of pass.new) }
    ensures stands { P.kind.stands (settings_of desk.now) (front_of pass.new) part.now }
    ensures own_stands { S.kind.stands (settings_of desk.now) (front_of pass.new) own.now }
    ensures meets { PartMeets L.settings (P.kind.actor (P.kind.number part.now)) (S.kind.actor (S.kind.number own.now))
        (view_of pass.old) (view_of seat.old) (view_of pass.new) }
{
    // For the prover alone: what is known of a part is known of one that is read.
    let _part = part;
    pass.join(desk, seat.take(desk));
}
