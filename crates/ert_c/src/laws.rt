//! Laws of the interface.
ghost use Rattle.std.specs.Prelude.{◌≡◌, ◌∷◌, pos};
ghost use Rattle.ert_c.specs.Constants.{below_zero, statuses};
ghost use Rattle.ert_shard.specs.OneHistory.{AreOfOneService, KnowOneHistory, world_knower, seat_knower, hub_knower, shard_knower};

use crate::handle::{ErtSeat, ErtWorld};
use crate::opening::SETTINGS_SIZE;
use crate::shard_handle::{ErtHub, ErtShard};

/// The statuses are 0 and the nineteen numbers below it, so no two are the same, and 0 is `OK` alone. The settings
/// have 56 bytes.
pub fn constants_are_fixed()
    ensures statuses { statuses ≡ pos 0 ∷ below_zero 19 }
    ensures size { SETTINGS_SIZE ≡ 56 }
{}

/// What a service and a seat of it know are beginnings of one legal history, whatever was called through whatever handles,
/// on whatever threads. Nothing calls this function, nor those below: each says what is so of any two handles of one service.
pub fn world_and_seat_know_one_history(world: &mut ErtWorld, seat: &mut ErtSeat)
    requires { AreOfOneService world_knower seat_knower world.old.place.value seat.old.place.value }
    ensures { KnowOneHistory world_knower seat_knower world.old.place.value seat.old.place.value }
{
    if !world.live || !seat.live {
        return;
    }
    let note = world.place.as_place().lend().note();
    seat.place.as_place().lend().learn(note);
}

/// So it is of two seats.
pub fn seats_know_one_history(seat: &mut ErtSeat, other: &mut ErtSeat)
    requires { AreOfOneService seat_knower seat_knower seat.old.place.value other.old.place.value }
    ensures { KnowOneHistory seat_knower seat_knower seat.old.place.value other.old.place.value }
{
    if !seat.live || !other.live {
        return;
    }
    let note = seat.place.as_place().lend().note();
    other.place.as_place().lend().learn(note);
}

/// So it is of a hub and a seat.
pub fn hub_and_seat_know_one_history(hub: &mut ErtHub, seat: &mut ErtSeat)
    requires { AreOfOneService hub_knower seat_knower hub.old.place.value seat.old.place.value }
    ensures { KnowOneHistory hub_knower seat_knower hub.old.place.value seat.old.place.value }
{
    if !hub.live || !seat.live {
        return;
    }
    let note = hub.place.as_place().lend().note();
    seat.place.as_place().lend().learn(note);
}

/// So it is of a hub and a shard.
pub fn hub_and_shard_know_one_history(hub: &mut ErtHub, shard: &mut ErtShard)
    requires { AreOfOneService hub_knower shard_knower hub.old.place.value shard.old.place.value }
    ensures { KnowOneHistory hub_knower shard_knower hub.old.place.value shard.old.place.value }
{
    if !hub.live || !shard.live {
        return;
    }
    let note = hub.place.as_place().lend().note();
    shard.place.as_place().lend().learn(note);
}

/// So it is of two shards.
pub fn shards_know_one_history(shard: &mut ErtShard, other: &mut ErtShard)
    requires { AreOfOneService shard_knower shard_knower shard.old.place.value other.old.place.value }
    ensures { KnowOneHistory shard_knower shard_knower shard.old.place.value other.old.place.value }
{
    if !shard.live || !other.live {
        return;
    }
    let note = shard.place.as_place().lend().note();
    other.place.as_place().lend().learn(note);
}

/// So it is of a shard and a seat.
pub fn shard_and_seat_know_one_history(shard: &mut ErtShard, seat: &mut ErtSeat)
    requires { AreOfOneService shard_knower seat_knower shard.old.place.value seat.old.place.value }
    ensures { KnowOneHistory shard_knower seat_knower shard.old.place.value seat.old.place.value }
{
    if !shard.live || !seat.live {
        return;
    }
    let note = shard.place.as_place().lend().note();
    seat.place.as_place().lend().learn(note);
}
