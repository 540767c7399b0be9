//! The exported calls of a shard's scheduler, and those that make room in its list of expired timers and give it back.
ghost use Rattle.ert_c.specs.{ShardCalls.{ShardAdvancesBy, ShardDeliversBy, ShardTurnsBy, ShardLooksAhead, ShardDrops, IsTurnTold}, ShardMailing.ShardChangesListRoom, Through.AnswersThrough, Told.{IsAdvanceTold, IsDelivered, IsDueTold}};
ghost use Rattle.ert_c.specs.{Waiting.IsCount};

use crate::handle::opened;
use crate::mail_calls::tell_done;
use crate::shard_handle::ErtShard;
use crate::status::CLOSED;
use crate::turn_calls::{
    ErtAdvanced, ErtDelivered, ErtTurned, tell, tell_advanced, tell_delivered, tell_due,
};
use crate::waiting_calls::tell_count;
use ert_defs::NoMemory;
use ert_shard::Turn;

/// Lets the due timers of a shard expire.
#[unsafe(no_mangle)]
pub extern "C" fn ert_shard_advance(shard: &mut ErtShard, advanced: &mut ErtAdvanced) -> i32
    ensures { AnswersThrough ShardAdvancesBy IsAdvanceTold advanced.old advanced.new shard.old.place.value result shard.new.place.value }
{
    let answer = opened!(shard).advance();
    tell_advanced(answer, advanced)
}

/// Hands over the expired timers of a shard.
#[unsafe(no_mangle)]
pub extern "C" fn ert_shard_deliver(shard: &mut ErtShard, delivered: &mut ErtDelivered) -> i32
    ensures { AnswersThrough ShardDeliversBy IsDelivered delivered.old delivered.new shard.old.place.value result shard.new.place.value }
{
    let answer = opened!(shard).deliver();
    tell_delivered(answer, delivered)
}

/// Makes a turn of a shard: serves, advances and delivers.
#[unsafe(no_mangle)]
pub extern "C" fn ert_shard_turn(shard: &mut ErtShard, turned: &mut ErtTurned) -> i32
    ensures { AnswersThrough ShardTurnsBy IsTurnTold turned.old turned.new shard.old.place.value result shard.new.place.value }
{
    let answer = opened!(shard).turn();
    tell_turn(answer, turned)
}

/// Tells how early a timer of a shard may be due.
#[unsafe(no_mangle)]
pub extern "C" fn ert_shard_next_due(shard: &mut ErtShard, due: &mut u64) -> i32
    ensures { AnswersThrough ShardLooksAhead IsDueTold due.old due.new shard.old.place.value result shard.new.place.value }
{
    let answer = opened!(shard).next_due();
    tell_due(answer, due)
}

/// Drops the timers of a shard's wheel that others have cancelled, and tells how many they were.
#[unsafe(no_mangle)]
pub extern "C" fn ert_shard_drop_settled(shard: &mut ErtShard, dropped: &mut u64) -> i32
    ensures { AnswersThrough ShardDrops (λ answer _. IsCount answer) dropped.old dropped.new shard.old.place.value result shard.new.place.value }
{
    let answer = opened!(shard).drop_settled();
    tell_count(u64::from(answer), dropped)
}

/// Makes room in the list of expired timers of a shard for so many more.
#[unsafe(no_mangle)]
pub extern "C" fn ert_shard_reserve_expired(shard: &mut ErtShard, count: usize) -> i32
    ensures { ShardChangesListRoom shard.old.place.value result shard.new.place.value }
{
    let answer = opened!(shard).reserve_expired(count);
    tell_done(answer)
}

/// Gives back the memory of the list of expired timers of a shard that those which wait don't need.
#[unsafe(no_mangle)]
pub extern "C" fn ert_shard_shrink_expired(shard: &mut ErtShard) -> i32
    ensures { ShardChangesListRoom shard.old.place.value result shard.new.place.value }
{
    let answer = opened!(shard).shrink_expired();
    tell_done(answer)
}

/// Returns what a turn of a shard did.
fn tell_turn(answer: Result<Turn, NoMemory>, turned: &mut ErtTurned) -> i32
    ensures { IsTurnTold answer turned.old result turned.new }
{
    tell(
        answer.map(|done| ErtTurned {
            to: done.to,
            served: done.served,
            expired: done.expired,
            put: done.put,
            dropped: done.dropped,
        }),
        turned,
    )
}
