//! The replies to ops, by the answers of their calls.
ghost use Rattle.std.specs.Prelude.{◌≡◌, ◌≢◌, [], Err};
ghost use Rattle.ert_clock.specs.declared.clock.ClockErr.TheVariants.{BadReading};
ghost use Rattle.ert_defs.specs.Settings.{IsChecked};
ghost use Rattle.ert_effects.specs.declared.answers.StartErr.TheVariants.{NoMemory as OutOfMemory};
ghost use Rattle.ert_script.specs.Replies.{tick_told, check_told, finalize_told, settings_told, start_told, take_told};
ghost use Rattle.ert_ops.specs.Calls.{Converts};

use ert_clock::{ClockErr, Moved};
use ert_defs::{Kind, OffsetState, Settings, TimerRef};
use ert_effects::{StartErr, Taken};
use ert_ops::{Reply, TooWide, Unit, convert};

/// The reply of a tick. The reading was valid.
pub fn ticked(moved: Result<Moved, ClockErr>) -> Reply
    requires { moved ≢ Err BadReading }
    ensures { result ≡ tick_told moved }
{
    match moved {
        Ok(Moved { now, shift }) => Reply::Tick { now, shift },
        Err(ClockErr::OffsetWide { value }) => Reply::TickWide { value },
        Err(ClockErr::BadReading) => unreachable!(),
    }
}

/// The reply of a forced tick. The reading was valid.
pub(crate) fn checked(moved: Result<Moved, ClockErr>) -> Reply
    requires { moved ≢ Err BadReading }
    ensures { result ≡ check_told moved }
{
    match moved {
        Ok(Moved { now, shift }) => Reply::Check { now, shift },
        Err(ClockErr::OffsetWide { value }) => Reply::CheckWide { value },
        Err(ClockErr::BadReading) => unreachable!(),
    }
}

/// The reply of a finalization. The reading was valid.
pub(crate) fn finalized(moved: Result<(OffsetState, Moved), ClockErr>) -> Reply
    requires { moved ≢ Err BadReading }
    ensures { result ≡ finalize_told moved }
{
    match moved {
        Ok((old, Moved { now, shift })) => Reply::Finalize { old, now, shift },
        Err(ClockErr::OffsetWide { value }) => Reply::FinalizeWide { value },
        Err(ClockErr::BadReading) => unreachable!(),
    }
}

/// The settings as they are told, with the offset as it was read.
pub(crate) fn settings_told(settings: &Settings, offset: i64, state: OffsetState) -> Reply
    requires { IsChecked settings.now }
    ensures { result ≡ settings_told settings.now offset state }
{
    Reply::Info {
        start: settings.start,
        end: settings.end(),
        mode: settings.mode,
        correction: settings.correction,
        offset,
        state,
    }
}

/// A time in another unit. Nobody's call has part in it.
pub(crate) fn convert_time(time: i64, from: Unit, to: Unit) -> Reply
    ensures { Converts time from to result [] }
{
    match convert(time, from, to) {
        Ok(value) => Reply::Convert { value },
        Err(TooWide) => Reply::ConvertTooWide,
    }
}

/// The reply of a start of either kind, for which there was memory.
pub(crate) fn start_told(kind: Kind, answer: Result<TimerRef, StartErr>) -> Reply
    requires { answer ≢ Err OutOfMemory }
    ensures { result ≡ start_told kind answer }
{
    match (kind, answer) {
        (Kind::Wrapped, Ok(timer)) => Reply::StartOk { timer },
        (Kind::Wrapped, Err(StartErr::BadArg)) => Reply::StartBadArg,
        (Kind::Wrapped, Err(StartErr::Full)) => Reply::StartFull,
        (Kind::Bare, Ok(timer)) => Reply::SendAfterOk { timer },
        (Kind::Bare, Err(StartErr::BadArg)) => Reply::SendAfterBadArg,
        (Kind::Bare, Err(StartErr::Full)) => Reply::SendAfterFull,
        (_, Err(StartErr::NoMemory)) => unreachable!(),
    }
}

/// The reply of a take.
pub(crate) fn taken(answer: Taken) -> Reply
    ensures { result ≡ take_told answer }
{
    match answer {
        Taken::Mail(mail) => Reply::Received { mail },
        Taken::Empty => Reply::ReceivedEmpty,
        Taken::Exited => Reply::ReceivedExited,
    }
}
