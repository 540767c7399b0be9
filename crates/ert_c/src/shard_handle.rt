//! The handles that C has of a hub and of a shard.
ghost use Rattle.std.specs.Prelude.{◌≡◌, Option};
ghost use Rattle.std.specs.Coded.{codes};
ghost use Rattle.ert_c.specs.Places.{is_there};
ghost use Rattle.ert_shard.specs.{Hubs.Rest, Shards.Owned};
ghost use Rattle.ert_timers.specs.Parts.{part_code};

use crate::place::Place;
use ert_shard::{Hub, Shard};
use std::marker::Model;

/// The place of a hub, as C holds it: with no type parameter.
#[repr(C)]
pub struct HubPlace {
    at: *mut u8,
    pub(crate) ghost value: { Option Rest } by { Prim.hlevel codes },
}

impl Model for HubPlace {
    ghost use Rattle.ert_c.specs.Places.{held};
    ghost use Rattle.ert_shard.specs.contracts.hub.Hub.{the_row};

    ghost also_owns = { λ h. held the_row h.at h.value };
}

impl HubPlace {
    ghost use Rattle.std.specs.Prelude.{◌≡◌};
    ghost use Rattle.std.specs.Borrow.{sem, Lends};
    ghost use Rattle.ert_c.specs.contracts.shard_handle.HubPlace as held;
    ghost use Rattle.ert_c.specs.contracts.place.Place as place;
    ghost use Rattle.ert_shard.specs.contracts.hub.Hub as hub;

    /// The place.
    pub(crate) fn as_place(&mut self) -> &mut Place<Hub>
        ensures* writes_back { sem 𝓛 (Lends held.the_row (place.the_row hub.the_row) self.entry result (λ p. record { at = p.at; value = p.value })) }
        ensures value { self.old.value ≡ result.now.value }
    {
        unsafe { &mut *(self as *mut HubPlace).cast::<Place<Hub>>() }
    }
}

/// The place of a shard, as C holds it.
#[repr(C)]
pub struct ShardPlace {
    at: *mut u8,
    pub(crate) ghost value: { Option Owned } by { Prim.hlevel (codes, part_code) },
}

impl Model for ShardPlace {
    ghost use Rattle.ert_c.specs.Places.{held};
    ghost use Rattle.ert_shard.specs.contracts.shard.Shard.{the_row};

    ghost also_owns = { λ h. held the_row h.at h.value };
}

impl ShardPlace {
    ghost use Rattle.std.specs.Prelude.{◌≡◌};
    ghost use Rattle.std.specs.Borrow.{sem, Lends};
    ghost use Rattle.ert_c.specs.contracts.shard_handle.ShardPlace as held;
    ghost use Rattle.ert_c.specs.contracts.place.Place as place;
    ghost use Rattle.ert_shard.specs.contracts.shard.Shard as shard;

    /// The place.
    pub(crate) fn as_place(&mut self) -> &mut Place<Shard>
        ensures* writes_back { sem 𝓛 (Lends held.the_row (place.the_row shard.the_row) self.entry result (λ p. record { at = p.at; value = p.value })) }
        ensures value { self.old.value ≡ result.now.value }
    {
        unsafe { &mut *(self as *mut ShardPlace).cast::<Place<Shard>>() }
    }
}

/// A hub, or none: two words in the caller's memory.
#[repr(C)]
pub struct ErtHub {
    pub(crate) place: HubPlace,
    /// Whether there is a hub. It is read before the place is.
    pub(crate) live: bool,
    ghost told: { is_there place.value ≡ live },
}

/// A shard, or none: two words in the caller's memory.
#[repr(C)]
pub struct ErtShard {
    pub(crate) place: ShardPlace,
    /// Whether there is a shard. It is read before the place is.
    pub(crate) live: bool,
    ghost told: { is_there place.value ≡ live },
}

/// The shard of a handle, for a call for a process of its own. Where there is no such one, the call ends.
macro_rules! at_home {
    ($shard:ident, $process:ident) => {{
        let own = opened!($shard);
        if $process < own.from() || $process >= own.to() {
            return RANGE;
        }
        own
    }};
}

pub(crate) use at_home;
