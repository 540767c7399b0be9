//! How the seats of a service are joined when it is closed.
ghost use Rattle.std.specs.Prelude.{◌≡◌, ◌<◌, ◌≤◌, ℕ, true, [], All};
ghost use Rattle.std.specs.Vec.{vec_capacity};
ghost use Rattle.ert_defs.specs.{Legal.Legal, declared.entry.Actor.TheVariants.Caller};
ghost use Rattle.ert_locks.specs.{Kinds.scheds, Names.IsDesk};
ghost use Rattle.ert_service.specs.{Gathering.{IsSeen, AreIn}, Joining.AreNumbered};
ghost use Rattle.ert_table.specs.{Desks.{view_of, front_of, actors_of, Belongs}, Held.is_held};

use ert_locks::{CallerSeat, DeskName, SchedSeat};
use ert_table::{Desk, Pass};
use ert_timers::SchedPart;

/// Joins the passes of all callers.
pub(crate) fn join_callers<L: DeskName>(desk: &Desk, pass: &mut Pass, seats: Vec<CallerSeat<L>>)
    requires desk { IsDesk L.table L.settings desk.now }
    requires belongs { Belongs desk.now pass.old }
    requires legal { Legal L.settings (front_of pass.old) }
    requires numbered { AreNumbered (λ s. s.number) L.settings.callers seats.items }
    ensures belongs { Belongs desk.now pass.new }
    ensures legal { Legal L.settings (front_of pass.new) }
    ensures seen { IsSeen (view_of pass.old) (view_of pass.new) }
    ensures seats { All (λ s. IsSeen (view_of s.pass) (view_of pass.new)) seats.items }
    ensures held { (i : ℕ) → i < L.settings.callers → is_held (actors_of pass.new) (Caller i) ≡ true }
{
    for seat in seats {
        pass.join(desk, seat.pass);
    }
}

/// Joins the passes of all schedulers, and puts their parts into a vector with room for them, in order of
/// number.
pub(crate) fn join_scheds<L: DeskName>(
    desk: &Desk,
    pass: &mut Pass,
    seats: Vec<SchedSeat<L>>,
    parts: Vec<SchedPart>,
) -> Vec<SchedPart>
    requires desk { IsDesk L.table L.settings desk.now }
    requires belongs { Belongs desk.now pass.old }
    requires legal { Legal L.settings (front_of pass.old) }
    requires numbered { AreNumbered (λ s. s.part.wheel) L.settings.schedulers seats.items }
    requires parts { parts.items ≡ [] }
    requires room { L.settings.schedulers ≤ vec_capacity parts }
    ensures belongs { Belongs desk.now pass.new }
    ensures legal { Legal L.settings (front_of pass.new) }
    ensures seen { IsSeen (view_of pass.old) (view_of pass.new) }
    ensures seats { All (λ s. IsSeen (view_of s.pass) (view_of pass.new)) seats.items }
    ensures parts { AreIn scheds L.settings L.settings.schedulers (view_of pass.new) result.items }
{
    let mut parts = parts;
    for seat in seats {
        let SchedSeat {
            part,
            pass: own,
            ..
        } = seat;
        pass.join(desk, own);
        parts.push_reserved(part);
    }
    parts
}
