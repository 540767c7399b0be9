//! The exported calls of a shard on asynchronous requests.
ghost use Rattle.ert_c.specs.{ShardServing.{ShardPutsRequest, ShardServesBy, IsServeTold}, Through.AnswersThrough};

use crate::handle::opened;
use crate::mail_calls::{ErtRequest, request_kind_at, tell_done};
use crate::shard_handle::ErtShard;
use crate::status::{BAD_KIND, CLOSED, NO_MEMORY, OK, RANGE};
use ert_shard::ServeErr;

/// Asks the scheduler of a shard to cancel or to read a timer.
#[unsafe(no_mangle)]
pub extern "C" fn ert_shard_ask(shard: &mut ErtShard, request: &ErtRequest) -> i32
    ensures { ShardPutsRequest request.now shard.old.place.value result shard.new.place.value }
{
    let own = opened!(shard);
    let Some(kind) = request_kind_at(request.kind) else {
        return BAD_KIND;
    };
    if !own.is_home(request.reply_to) {
        return RANGE;
    }
    let answer = own.ask(request.with_kind(kind));
    tell_done(answer)
}

/// Serves one request of a shard.
#[unsafe(no_mangle)]
pub extern "C" fn ert_shard_serve(shard: &mut ErtShard, served: &mut u32) -> i32
    ensures { AnswersThrough ShardServesBy IsServeTold served.old served.new shard.old.place.value result shard.new.place.value }
{
    let answer = opened!(shard).serve();
    tell_serve(answer, served)
}

/// Returns whether a request of a shard was served.
fn tell_serve(answer: Result<bool, ServeErr>, served: &mut u32) -> i32
    ensures { IsServeTold answer served.old result served.new }
{
    match answer {
        Ok(one) => {
            *served = u32::from(one);
            OK
        }
        Err(ServeErr::NotHome) => RANGE,
        Err(ServeErr::NoMemory) => NO_MEMORY,
    }
}
