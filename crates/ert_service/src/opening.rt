//! How a service is opened: each thread gets its seat.
ghost use Rattle.std.specs.Prelude.{◌≡◌, ◌<◌, ℕ, true, IfOk};
ghost use Rattle.ert_defs.specs.declared.entry.Actor.TheVariants.{Sched, Caller};
ghost use Rattle.ert_locks.specs.{Kinds.scheds, Names.IsDesk};
ghost use Rattle.ert_service.specs.Dividing.{AreFirst, AreSeated, KeepsBut};
ghost use Rattle.ert_table.specs.{Desks.{front_of, actors_of, Belongs}, Held.is_held};

use ert_defs::{Actor, NoMemory};
use ert_locks::{CallerSeat, DeskName, SchedSeat};
use ert_table::{Desk, Pass};
use ert_timers::SchedPart;
use std::alloc::Global;

/// Gives each scheduler its seat.
pub(crate) fn seat_scheds<L: DeskName>(
    alloc: Global,
    desk: &Desk,
    pass: &mut Pass,
    parts: Vec<SchedPart>,
) -> Result<Vec<SchedSeat<L>>, NoMemory>
    requires desk { IsDesk L.table L.settings desk.now }
    requires belongs { Belongs desk.now pass.old }
    requires parts { AreFirst scheds L.settings L.settings.schedulers (front_of pass.old) parts.items }
    requires held { (i : ℕ) → i < L.settings.schedulers → is_held (actors_of pass.old) (Sched i) ≡ true }
    ensures belongs { Belongs desk.now pass.new }
    ensures front { front_of pass.new ≡ front_of pass.old }
    ensures kept { KeepsBut Sched (actors_of pass.old) (actors_of pass.new) }
    ensures seats { IfOk result (λ seats. AreSeated (λ s. s.part.wheel) (λ s. front_of s.pass) L.settings.schedulers (front_of pass.old) seats.items) }
{
    let mut seats = Vec::with_capacity(alloc, parts.len())?;
    for part in parts {
        let own = pass.split(desk, Actor::Sched(part.wheel));
        seats.push_reserved(SchedSeat::new(part, own));
    }
    Ok(seats)
}

/// Gives each caller its seat.
pub(crate) fn seat_callers<L: DeskName>(
    alloc: Global,
    desk: &Desk,
    pass: &mut Pass,
) -> Result<Vec<CallerSeat<L>>, NoMemory>
    requires desk { IsDesk L.table L.settings desk.now }
    requires belongs { Belongs desk.now pass.old }
    requires held { (i : ℕ) → i < L.settings.callers → is_held (actors_of pass.old) (Caller i) ≡ true }
    ensures belongs { Belongs desk.now pass.new }
    ensures front { front_of pass.new ≡ front_of pass.old }
    ensures seats { IfOk result (λ seats. AreSeated (λ s. s.number) (λ s. front_of s.pass) L.settings.callers (front_of pass.old) seats.items) }
{
    let callers = desk.settings().callers;
    let mut seats = Vec::with_capacity(alloc, callers as usize)?;
    for number in 0..callers {
        let own = pass.split(desk, Actor::Caller(number));
        seats.push_reserved(CallerSeat::new(number, own));
    }
    Ok(seats)
}
