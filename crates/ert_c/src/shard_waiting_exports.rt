//! The exported calls of a shard that give a timer a new deadline, tell how much waits, and hand over so much at most.
ghost use Rattle.ert_c.specs.{ShardCalls.{AnswersAtHome, ShardRestarts, ShardTurnsSomeBy, ShardTellsHeld, ShardTellsExpired, ShardTellsMail, IsTurnSomeTold}, Through.AnswersThrough, Waiting.IsCount};

use crate::handle::opened;
use crate::shard_handle::{ErtShard, at_home};
use crate::status::{CLOSED, RANGE};
use crate::timer_calls::{ErtStart, ErtTimer};
use crate::turn_calls::tell;
use crate::waiting_calls::{ErtTurnedSome, tell_count, tell_restarted};
use ert_defs::NoMemory;
use ert_shard::Turn;

/// Gives an armed timer a new deadline, on the wheel of a shard, and its new name to C.
#[unsafe(no_mangle)]
pub extern "C" fn ert_shard_restart(
    shard: &mut ErtShard,
    timer: &mut ErtTimer,
    start: &ErtStart,
) -> i32
    ensures { ShardRestarts start.now timer.old timer.new shard.old.place.value result shard.new.place.value }
{
    let process = start.dest;
    let own = at_home!(shard, process);
    let answer = own.restart(timer.read(), &start.read());
    tell_restarted(answer, timer)
}

/// Tells how many timers the wheel of a shard holds.
#[unsafe(no_mangle)]
pub extern "C" fn ert_shard_held(shard: &mut ErtShard, held: &mut u64) -> i32
    ensures { AnswersThrough ShardTellsHeld (λ answer _. IsCount answer) held.old held.new shard.old.place.value result shard.new.place.value }
{
    let answer = opened!(shard).held();
    tell_count(answer, held)
}

/// Tells how many expired timers of a shard wait to be handed over.
#[unsafe(no_mangle)]
pub extern "C" fn ert_shard_expired(shard: &mut ErtShard, expired: &mut u64) -> i32
    ensures { AnswersThrough ShardTellsExpired (λ answer _. IsCount answer) expired.old expired.new shard.old.place.value result shard.new.place.value }
{
    let answer = opened!(shard).expired();
    tell_count(answer, expired)
}

/// Tells how many messages wait in the mailbox of a process of a shard.
#[unsafe(no_mangle)]
pub extern "C" fn ert_shard_mail_count(shard: &mut ErtShard, process: u32, count: &mut u64) -> i32
    ensures { AnswersAtHome process (ShardTellsMail process) (λ answer _. IsCount answer) count.old count.new shard.old.place.value result shard.new.place.value }
{
    let own = at_home!(shard, process);
    let answer = own.mail_count(process);
    tell_count(answer, count)
}

/// Makes a turn of a shard in which so many timers at most expire, and so many at most are handed over.
#[unsafe(no_mangle)]
pub extern "C" fn ert_shard_turn_some(
    shard: &mut ErtShard,
    most: u32,
    turned: &mut ErtTurnedSome,
) -> i32
    ensures { AnswersThrough (ShardTurnsSomeBy most) IsTurnSomeTold turned.old turned.new shard.old.place.value result shard.new.place.value }
{
    let answer = opened!(shard).turn_some(most);
    tell_turn_some(answer, turned)
}

/// Returns what a turn of a shard with a bound did.
fn tell_turn_some(answer: Result<(Turn, bool), NoMemory>, turned: &mut ErtTurnedSome) -> i32
    ensures { IsTurnSomeTold answer turned.old result turned.new }
{
    tell(
        answer.map(|(done, more)| ErtTurnedSome {
            to: done.to,
            served: done.served,
            expired: done.expired,
            put: done.put,
            dropped: done.dropped,
            more: u32::from(more),
        }),
        turned,
    )
}
