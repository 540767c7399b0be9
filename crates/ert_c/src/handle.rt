//! The handles that C has of a world and of a seat.
ghost use Rattle.std.specs.Prelude.{◌≡◌, Option};
ghost use Rattle.std.specs.Coded.{codes};
ghost use Rattle.ert_c.specs.Places.{is_there};
ghost use Rattle.ert_world.specs.{Seats.Seated, Worlds.Seen};
ghost use Rattle.ert_timers.specs.Parts.{part_code};

use crate::place::Place;
use ert_world::{Seat, World};
use std::marker::Model;

/// The place of a world, as C holds it: with no type parameter.
#[repr(C)]
pub struct WorldPlace {
    at: *mut u8,
    pub(crate) ghost value: { Option Seen } by { Prim.hlevel (codes, part_code) },
}

impl Model for WorldPlace {
    ghost use Rattle.ert_c.specs.Places.{held};
    ghost use Rattle.ert_world.specs.contracts.world.World.{the_row};

    ghost also_owns = { λ h. held the_row h.at h.value };
}

impl WorldPlace {
    ghost use Rattle.std.specs.Prelude.{◌≡◌};
    ghost use Rattle.std.specs.Borrow.{sem, Lends};
    ghost use Rattle.ert_c.specs.contracts.handle.WorldPlace as held;
    ghost use Rattle.ert_c.specs.contracts.place.Place as place;
    ghost use Rattle.ert_world.specs.contracts.world.World as world;

    /// The place.
    pub(crate) fn as_place(&mut self) -> &mut Place<World>
        ensures* writes_back { sem 𝓛 (Lends held.the_row (place.the_row world.the_row) self.entry result (λ p. record { at = p.at; value = p.value })) }
        ensures value { self.old.value ≡ result.now.value }
    {
        unsafe { &mut *(self as *mut WorldPlace).cast::<Place<World>>() }
    }
}

/// The place of a seat, as C holds it.
#[repr(C)]
pub struct SeatPlace {
    at: *mut u8,
    pub(crate) ghost value: { Option Seated } by { Prim.hlevel codes },
}

impl Model for SeatPlace {
    ghost use Rattle.ert_c.specs.Places.{held};
    ghost use Rattle.ert_world.specs.contracts.seat.Seat.{the_row};

    ghost also_owns = { λ h. held the_row h.at h.value };
}

impl SeatPlace {
    ghost use Rattle.std.specs.Prelude.{◌≡◌};
    ghost use Rattle.std.specs.Borrow.{sem, Lends};
    ghost use Rattle.ert_c.specs.contracts.handle.SeatPlace as held;
    ghost use Rattle.ert_c.specs.contracts.place.Place as place;
    ghost use Rattle.ert_world.specs.contracts.seat.Seat as seat;

    /// The place.
    pub(crate) fn as_place(&mut self) -> &mut Place<Seat>
        ensures* writes_back { sem 𝓛 (Lends held.the_row (place.the_row seat.the_row) self.entry result (λ p. record { at = p.at; value = p.value })) }
        ensures value { self.old.value ≡ result.now.value }
    {
        unsafe { &mut *(self as *mut SeatPlace).cast::<Place<Seat>>() }
    }
}

/// A service, or none: two words in the caller's memory.
#[repr(C)]
pub struct ErtWorld {
    pub(crate) place: WorldPlace,
    /// Whether there is a service. It is read before the place is.
    pub(crate) live: bool,
    ghost told: { is_there place.value ≡ live },
}

/// A seat, or none: two words in the caller's memory.
#[repr(C)]
pub struct ErtSeat {
    pub(crate) place: SeatPlace,
    /// Whether there is a seat. It is read before the place is.
    pub(crate) live: bool,
    ghost told: { is_there place.value ≡ live },
}

/// What stands behind a handle. Where it is closed, the call that asks ends.
macro_rules! opened {
    ($handle:ident) => {{
        if !$handle.live {
            return CLOSED;
        }
        $handle.place.as_place().lend()
    }};
}

/// The service of a handle, for a call at a scheduler. Where there is no such one, the call ends.
macro_rules! at_sched {
    ($world:ident, $sched:ident) => {{
        let service = opened!($world);
        if $sched >= service.settings().schedulers {
            return RANGE;
        }
        service
    }};
}

/// The service of a handle, for a call for a process. Where there is no such one, the call ends.
macro_rules! at_process {
    ($world:ident, $process:ident) => {{
        let service = opened!($world);
        if $process >= service.settings().processes {
            return RANGE;
        }
        service
    }};
}

pub(crate) use at_process;
pub(crate) use at_sched;
pub(crate) use opened;
