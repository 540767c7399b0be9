//! Messages, requests and monitors, as C passes and is told them.
ghost use Rattle.std.specs.Prelude.{◌≡◌, ◌<◌};
ghost use Rattle.ert_defs.specs.Legal.{Legal};
ghost use Rattle.ert_c.specs.{Mailing.{end_as, IsNextTold, TakesPlaces}, ShardMailing.ShardTakesPlaces, Told.{no_timer, c_mail_of, mail_as, request_of, request_kind_at, IsTakeTold, IsToldDone, IsMonitorTold, IsDemonitored}};
ghost use Rattle.ert_shard.specs.Shards.{IsHome};

use crate::status::{EMPTY, EXITED, FULL, NO_MEMORY, NO_MONITOR, OK};
use crate::timer_calls::ErtTimer;
use ert_defs::{Mail, NoMemory, Request, RequestKind};
use ert_effects::{MonitorErr, Taken};
use ert_shard::Shard;
use ert_world::{TakeEnd, World};

/// A message. Fields that its kind has not are 0.
#[repr(C)]
#[derive(Clone, Copy)]
pub struct ErtMail {
    /// 1 to 5: a timeout, a bare message, the answers of a cancel and of a read, a change of the offset.
    pub tag: u32,
    pub timer: ErtTimer,
    /// Whether the timer was armed, in an answer of a cancel or of a read.
    pub has_left: u32,
    pub monitor: u32,
    pub msg: u64,
    /// The milliseconds that were left of the timer.
    pub left: u64,
    /// The new time offset, in nanoseconds.
    pub offset: i64,
}

/// An asynchronous cancel or read.
#[repr(C)]
#[derive(Clone, Copy)]
pub struct ErtRequest {
    /// 0 to cancel, and 1 to read.
    pub kind: u32,
    pub timer: ErtTimer,
    /// The process that gets the answer.
    pub reply_to: u32,
    /// Whether an answer is sent at all: not 0.
    pub info: u32,
}

impl ErtRequest {
    /// The request, with what its `kind` was read as.
    pub(crate) fn with_kind(&self, kind: RequestKind) -> Request
        ensures { result ≡ request_of self.now kind }
    {
        Request {
            kind,
            timer: self.timer.read(),
            reply_to: self.reply_to,
            info: self.info != 0,
        }
    }
}

/// What a number asks for.
pub(crate) fn request_kind_at(kind: u32) -> Option<RequestKind>
    ensures { result ≡ request_kind_at kind }
{
    match kind {
        0 => Some(RequestKind::Cancel),
        1 => Some(RequestKind::Read),
        _ => None,
    }
}

fn no_timer() -> ErtTimer
    ensures { result ≡ no_timer }
{
    ErtTimer {
        wheel: 0,
        slot: 0,
        generation: 0,
    }
}

fn mail_of(tag: u32, timer: ErtTimer, msg: u64, left: Option<u64>) -> ErtMail
    ensures { result ≡ c_mail_of tag timer msg left }
{
    let has_left = match left {
        Some(_) => 1,
        None => 0,
    };
    ErtMail {
        tag,
        timer,
        has_left,
        monitor: 0,
        msg,
        left: left.unwrap_or(0),
        offset: 0,
    }
}

fn mail_as(mail: Mail) -> ErtMail
    ensures { result ≡ mail_as mail }
{
    match mail {
        Mail::Timeout { timer, msg } => mail_of(1, ErtTimer::of(timer), msg, None),
        Mail::Bare { msg } => mail_of(2, no_timer(), msg, None),
        Mail::CancelDone { timer, left } => mail_of(3, ErtTimer::of(timer), 0, left),
        Mail::ReadDone { timer, left } => mail_of(4, ErtTimer::of(timer), 0, left),
        Mail::Change { monitor, offset } => ErtMail {
            tag: 5,
            timer: no_timer(),
            has_left: 0,
            monitor,
            msg: 0,
            left: 0,
            offset,
        },
    }
}

/// Returns the first message.
pub(crate) fn tell_taken(answer: Taken, mail: &mut ErtMail) -> i32
    ensures { IsTakeTold answer mail.old result mail.new }
{
    match answer {
        Taken::Mail(first) => {
            *mail = mail_as(first);
            OK
        }
        Taken::Empty => EMPTY,
        Taken::Exited => EXITED,
    }
}

/// Returns whether a call was done that answers nothing more.
pub(crate) fn tell_done(answer: Result<(), NoMemory>) -> i32
    ensures { IsToldDone answer result }
{
    match answer {
        Ok(()) => OK,
        Err(_) => NO_MEMORY,
    }
}

/// Returns the number of a monitor.
pub(crate) fn tell_monitored(answer: Result<u32, MonitorErr>, monitor: &mut u32) -> i32
    ensures { IsMonitorTold answer monitor.old result monitor.new }
{
    match answer {
        Ok(number) => {
            *monitor = number;
            OK
        }
        Err(MonitorErr::Full) => FULL,
        Err(MonitorErr::NoMemory) => NO_MEMORY,
    }
}

/// Returns whether a monitor stood.
pub(crate) fn tell_demonitored(answer: bool) -> i32
    ensures { IsDemonitored answer result }
{
    if answer { OK } else { NO_MONITOR }
}

/// Returns a process with mail.
pub(crate) fn tell_next(answer: Result<Option<u32>, NoMemory>, process: &mut u32) -> i32
    ensures { IsNextTold answer process.old result process.new }
{
    match answer {
        Ok(Some(next)) => {
            *process = next;
            OK
        }
        Ok(None) => EMPTY,
        Err(_) => NO_MEMORY,
    }
}

/// Takes messages of a process into places, and answers how many, and how that ended.
pub(crate) fn take_places(
    world: &mut World,
    process: u32,
    mails: &mut [ErtMail],
) -> (usize, TakeEnd)
    requires process { process < world.old.settings.processes }
    requires legal { Legal world.old.settings world.old.history }
    ensures { TakesPlaces process world.old mails.old mails.new result world.new }
{
    let mut taken = 0;
    while taken < mails.len() {
        match world.take(process) {
            Taken::Mail(mail) => mails[taken] = mail_as(mail),
            Taken::Empty => return (taken, TakeEnd::Empty),
            Taken::Exited => return (taken, TakeEnd::Exited),
        }
        taken += 1;
    }
    (taken, TakeEnd::Most)
}

/// Takes messages of a process of a shard into places, and answers how many, and how that ended.
pub(crate) fn take_shard_places(
    shard: &mut Shard,
    process: u32,
    mails: &mut [ErtMail],
) -> (usize, TakeEnd)
    requires { IsHome shard.old.share process }
    ensures { ShardTakesPlaces process shard.old mails.old mails.new result shard.new }
{
    shard.keeps_laws();
    let mut taken = 0;
    while taken < mails.len() {
        match shard.take(process) {
            Taken::Mail(first) => mails[taken] = mail_as(first),
            Taken::Empty => return (taken, TakeEnd::Empty),
            Taken::Exited => return (taken, TakeEnd::Exited),
        }
        taken += 1;
    }
    (taken, TakeEnd::Most)
}

/// Returns how a take of several messages ended.
pub(crate) fn tell_end(ended: TakeEnd) -> i32
    ensures { result ≡ end_as ended }
{
    match ended {
        TakeEnd::Most => OK,
        TakeEnd::Empty => EMPTY,
        TakeEnd::Exited => EXITED,
    }
}
