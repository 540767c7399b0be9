//! The exported calls of a shard on mailboxes and monitors.
ghost use Rattle.std.specs.Prelude.{length};
ghost use Rattle.ert_c.specs.{Mailing.{IsNextTold, IsTookSome}, ShardCalls.{AnswersAtHome, ShardDemonitors, ShardTakesBy, ShardMonitorsBy, ShardNotifiesBy}, ShardMailing.{ShardFindsMailBy, ShardTakesSomeBy, ShardChangesRoom}};
ghost use Rattle.ert_c.specs.{Through.AnswersThrough, Told.{IsTakeTold, IsMonitorTold, IsNumber}};

use crate::handle::opened;
use crate::mail_calls::{
    ErtMail, take_shard_places, tell_demonitored, tell_done, tell_end, tell_monitored, tell_next,
    tell_taken,
};
use crate::shard_handle::{ErtShard, at_home};
use crate::status::{CLOSED, RANGE};
use crate::turn_calls::tell;

/// Takes the first message of a process of a shard.
#[unsafe(no_mangle)]
pub extern "C" fn ert_shard_take(shard: &mut ErtShard, process: u32, mail: &mut ErtMail) -> i32
    ensures { AnswersAtHome process (ShardTakesBy process) IsTakeTold mail.old mail.new shard.old.place.value result shard.new.place.value }
{
    let own = at_home!(shard, process);
    let answer = own.take(process);
    tell_taken(answer, mail)
}

/// Takes the first messages of a process of a shard, as many as there is room for at most.
#[unsafe(no_mangle)]
pub extern "C" fn ert_shard_take_some(
    shard: &mut ErtShard,
    process: u32,
    mails: &mut [ErtMail],
    count: &mut usize,
) -> i32
    ensures { AnswersAtHome process (ShardTakesSomeBy process (length mails.old)) IsTookSome (mails.old, count.old) (mails.new, count.new)
        shard.old.place.value result shard.new.place.value }
{
    let own = at_home!(shard, process);
    let (taken, ended) = take_shard_places(own, process, mails);
    *count = taken;
    tell_end(ended)
}

/// Tells a process of a shard that hasn't exited and has mail.
#[unsafe(no_mangle)]
pub extern "C" fn ert_shard_next_mail(shard: &mut ErtShard, process: &mut u32) -> i32
    ensures { AnswersThrough ShardFindsMailBy IsNextTold process.old process.new shard.old.place.value result shard.new.place.value }
{
    let answer = opened!(shard).next_mail();
    tell_next(answer, process)
}

/// Makes room in the mailbox of a process of a shard for so many more messages.
#[unsafe(no_mangle)]
pub extern "C" fn ert_shard_reserve_mail(shard: &mut ErtShard, process: u32, count: usize) -> i32
    ensures { ShardChangesRoom process shard.old.place.value result shard.new.place.value }
{
    let own = at_home!(shard, process);
    let answer = own.reserve_mail(process, count);
    tell_done(answer)
}

/// Gives back the memory of the mailbox of a process of a shard that its messages don't need.
#[unsafe(no_mangle)]
pub extern "C" fn ert_shard_shrink_mail(shard: &mut ErtShard, process: u32) -> i32
    ensures { ShardChangesRoom process shard.old.place.value result shard.new.place.value }
{
    let own = at_home!(shard, process);
    let answer = own.shrink_mail(process);
    tell_done(answer)
}

/// Makes a monitor of the time offset for a process of a shard.
#[unsafe(no_mangle)]
pub extern "C" fn ert_shard_monitor(shard: &mut ErtShard, process: u32, monitor: &mut u32) -> i32
    ensures { AnswersAtHome process (ShardMonitorsBy process) IsMonitorTold monitor.old monitor.new shard.old.place.value result shard.new.place.value }
{
    let own = at_home!(shard, process);
    let answer = own.monitor(process);
    tell_monitored(answer, monitor)
}

/// Notifies a process of a shard of the time offset, where it is news.
#[unsafe(no_mangle)]
pub extern "C" fn ert_shard_notify(shard: &mut ErtShard, process: u32, told: &mut u32) -> i32
    ensures { AnswersAtHome process (ShardNotifiesBy process) IsNumber told.old told.new shard.old.place.value result shard.new.place.value }
{
    let own = at_home!(shard, process);
    let answer = own.notify(process);
    tell(answer, told)
}

/// Removes a monitor of a process of a shard.
#[unsafe(no_mangle)]
pub extern "C" fn ert_shard_demonitor(shard: &mut ErtShard, process: u32, monitor: u32) -> i32
    ensures { ShardDemonitors process monitor shard.old.place.value result shard.new.place.value }
{
    let own = at_home!(shard, process);
    let answer = own.demonitor(process, monitor);
    tell_demonitored(answer)
}
