//! The texts of reasons.

ghost use Rattle.std.specs.Prelude.{◌≡◌, ◌++◌, OnOk, string_bytes};
ghost use Rattle.ert_judge.specs.Texts.{maker_text, actor_text, partner_text, due_text, slot_text, ms_text, unarmed_text, waiting_text, outcome_text, first_text, exit_text, monitor_text, reason_text, IsPastClock, IsPastTimers};

use crate::reasons::{Maker, Partner, Reason};
use crate::words::{state_word, status_word, thing_word, write_left, write_mail, write_request};
use ert_defs::{Actor, Mail, OffsetState, Request, Status, TimerRef};
use std::alloc::AllocError;
use std::fmt::Write;

/// Appends the text of a reason, for a person. It is one line without its end.
pub fn write_reason(page: &mut String, reason: Reason) -> Result<(), AllocError>
    ensures { OnOk result (string_bytes page.new ≡ string_bytes page.old ++ reason_text reason) }
{
    match reason {
        Reason::NotBy(maker) => write_maker(page, maker),
        Reason::NotWith(partner) => write_partner(page, partner),
        Reason::TooHigh {
            thing,
            number,
            count,
        } => write!(
            page,
            "there is no {} {number}: the settings have {count}",
            thing_word(thing)
        ),
        Reason::ShiftFirst { offset, state } => write!(
            page,
            "a shift is due first: {offset} {}",
            state_word(state)
        ),
        Reason::BadReading => write!(page, "its reading isn't valid"),
        Reason::NotPreliminary { state } => write!(
            page,
            "only a preliminary offset can be finalized, and the state is {}",
            state_word(state)
        ),
        Reason::OtherTick { time } => {
            write!(page, "with this reading the clock comes to {time}")
        }
        Reason::OffsetPast { offset, .. } => write!(
            page,
            "the shift that it makes due takes the offset past its limits, to {offset}"
        ),
        Reason::OtherShift { due } => write_due(page, due),
        Reason::OtherTime { now } => write!(page, "the clock's time is {now}"),
        Reason::OtherOffset { offset } => write!(page, "the offset is {offset}"),
        Reason::OtherState { state } => {
            write!(page, "the state of the offset is {}", state_word(state))
        }
        _ => write_timer_reason(page, reason),
    }
}

/// The text of a reason that isn't of the range or the clock.
fn write_timer_reason(page: &mut String, reason: Reason) -> Result<(), AllocError>
    requires { IsPastClock reason }
    ensures { OnOk result (string_bytes page.new ≡ string_bytes page.old ++ reason_text reason) }
{
    match reason {
        Reason::SlotTaken { status } => write!(
            page,
            "the slot is taken: its last timer is {}",
            status_word(status)
        ),
        Reason::OtherGeneration { next } => {
            write!(page, "the next generation of the slot is {next}")
        }
        Reason::Rests { until } => write!(page, "the slot rests until {until} ms"),
        Reason::WheelUsed => write!(page, "the wheel has had 2^53 timers"),
        Reason::NoDeadline => write!(
            page,
            "the start is refused: its delay is negative, or its deadline is outside the limits"
        ),
        Reason::OtherStatus { status } => write_slot(page, status),
        Reason::OtherLeft { left } => write_ms(page, left),
        Reason::NotArmed { status } => write_unarmed(page, status),
        Reason::NotDue {
            scheduler,
            deadline,
            looked,
        } => write!(
            page,
            "the timer's deadline is {deadline} ms, and scheduler {scheduler} last looked at {looked} ms"
        ),
        Reason::Later { first, deadline } => write_later(page, first, deadline),
        Reason::NotNext => write!(page, "an armed timer of the scheduler comes first"),
        Reason::NotExited { dest } => {
            write!(page, "its destination, process {dest}, hasn't exited")
        }
        _ => write_last_reason(page, reason),
    }
}

/// The text of a reason that isn't of a timer either: it is of what waits, of a request or of a mailbox.
fn write_last_reason(page: &mut String, reason: Reason) -> Result<(), AllocError>
    requires clock { IsPastClock reason }
    requires timers { IsPastTimers reason }
    ensures { OnOk result (string_bytes page.new ≡ string_bytes page.old ++ reason_text reason) }
{
    match reason {
        Reason::NoneWaits => write!(page, "no expired timer of the scheduler waits"),
        Reason::OtherWaits { first } => write_waits(page, first),
        Reason::OtherDest { dest } => { write!(page, "the timer's destination is process {dest}") }
        Reason::OtherMilliseconds { looked } => {
            write!(page, "the scheduler last looked at {looked} ms")
        }
        Reason::StillArmed { timer, deadline } => write_still(page, timer, deadline),
        Reason::OtherExit { exited } => write_exit(page, exited),
        Reason::HandFull { request } => write_hand(page, request),
        Reason::OtherRequest { first } => write_waiting(page, first),
        Reason::HandEmpty => write!(page, "no request is in the scheduler's hand"),
        Reason::OtherAsker { process } => {
            write!(
                page,
                "the request in the hand was asked for process {process}"
            )
        }
        Reason::OtherOutcome { outcome } => write_outcome(page, outcome),
        Reason::NothingLeft => write!(
            page,
            "the request names no timer in range, so that nothing is left"
        ),
        Reason::OtherMail { first } => write_first(page, first),
        Reason::OtherMonitor { stands } => write_monitor(page, stands),
        Reason::OtherNumber { next } => {
            write!(page, "the next monitor of the process is {next}")
        }
        Reason::TooMany { count } => {
            write!(
                page,
                "{count} monitors of the process stand, which is the limit"
            )
        }
        _ => Ok(()),
    }
}

fn write_maker(page: &mut String, maker: Maker) -> Result<(), AllocError>
    ensures { OnOk result (string_bytes page.new ≡ string_bytes page.old ++ maker_text maker) }
{
    match maker {
        Maker::Clock => write!(page, "only k makes it"),
        Maker::Scheduler(number) => write!(page, "only s{number} makes it"),
        Maker::AnyCaller => write!(page, "only a caller makes it"),
        Maker::User => write!(page, "only a caller or a scheduler makes it"),
        Maker::CallerOr(number) => write!(page, "only a caller or s{number} makes it"),
        Maker::Reader => write!(page, "only k, a caller or a scheduler makes it"),
    }
}

fn write_partner(page: &mut String, partner: Partner) -> Result<(), AllocError>
    ensures { OnOk result (string_bytes page.new ≡ string_bytes page.old ++ partner_text partner) }
{
    match partner {
        Partner::Nobody => write!(page, "it is made with nobody"),
        Partner::Exactly(actor) => write_actor(page, actor),
        Partner::SomeCaller => write!(page, "it is made with a caller"),
        Partner::SomeMailbox => write!(page, "it is made with the mailbox of a process"),
    }
}

fn write_actor(page: &mut String, actor: Actor) -> Result<(), AllocError>
    ensures { OnOk result (string_bytes page.new ≡ string_bytes page.old ++ actor_text actor) }
{
    match actor {
        Actor::Keeper => write!(page, "it is made with k"),
        Actor::Wheel(number) => write!(page, "it is made with w{number}"),
        Actor::Inbox(number) => write!(page, "it is made with i{number}"),
        Actor::Sched(number) => write!(page, "it is made with s{number}"),
        Actor::MailOf(number) => write!(page, "it is made with m{number}"),
        Actor::Caller(number) => write!(page, "it is made with c{number}"),
    }
}

fn write_due(page: &mut String, due: Option<(i64, OffsetState)>) -> Result<(), AllocError>
    ensures { OnOk result (string_bytes page.new ≡ string_bytes page.old ++ due_text due) }
{
    match due {
        None => write!(page, "no shift is due"),
        Some((offset, state)) => write!(
            page,
            "the shift that is due is {offset} {}",
            state_word(state)
        ),
    }
}

fn write_slot(page: &mut String, status: Option<Status>) -> Result<(), AllocError>
    ensures { OnOk result (string_bytes page.new ≡ string_bytes page.old ++ slot_text status) }
{
    match status {
        None => write!(page, "the slot had no timer"),
        Some(status) => write!(
            page,
            "the last timer of the slot is {}",
            status_word(status)
        ),
    }
}

fn write_ms(page: &mut String, left: Option<u128>) -> Result<(), AllocError>
    ensures { OnOk result (string_bytes page.new ≡ string_bytes page.old ++ ms_text left) }
{
    match left {
        None => write!(page, "the timer isn't armed, so that nothing is left"),
        Some(left) => write!(page, "{left} ms are left"),
    }
}

fn write_unarmed(page: &mut String, status: Option<Status>) -> Result<(), AllocError>
    ensures { OnOk result (string_bytes page.new ≡ string_bytes page.old ++ unarmed_text status) }
{
    match status {
        None => write!(page, "the timer was never armed"),
        Some(status) => write!(page, "the timer is {}, not armed", status_word(status)),
    }
}

fn write_later(page: &mut String, first: TimerRef, deadline: u64) -> Result<(), AllocError>
    ensures { OnOk result (string_bytes page.new ≡ string_bytes page.old ++ reason_text (Reason.Later first deadline)) }
{
    write!(
        page,
        "timer {} {} {} comes first, with deadline {deadline} ms",
        first.wheel, first.slot, first.generation
    )
}

fn write_waits(page: &mut String, first: TimerRef) -> Result<(), AllocError>
    ensures { OnOk result (string_bytes page.new ≡ string_bytes page.old ++ reason_text (Reason.OtherWaits first)) }
{
    write!(
        page,
        "timer {} {} {} is the first that waits",
        first.wheel, first.slot, first.generation
    )
}

fn write_still(page: &mut String, timer: TimerRef, deadline: u64) -> Result<(), AllocError>
    ensures { OnOk result (string_bytes page.new ≡ string_bytes page.old ++ reason_text (Reason.StillArmed timer deadline)) }
{
    write!(
        page,
        "timer {} {} {} is still armed, with deadline {deadline} ms",
        timer.wheel, timer.slot, timer.generation
    )
}

fn write_exit(page: &mut String, exited: bool) -> Result<(), AllocError>
    ensures { OnOk result (string_bytes page.new ≡ string_bytes page.old ++ exit_text exited) }
{
    if exited {
        write!(page, "the process has exited")
    } else {
        write!(page, "the process hasn't exited")
    }
}

fn write_hand(page: &mut String, request: Request) -> Result<(), AllocError>
    ensures { OnOk result (string_bytes page.new ≡ string_bytes page.old ++ reason_text (Reason.HandFull request)) }
{
    write!(page, "a request is in the scheduler's hand: ")?;
    write_request(page, request)
}

fn write_waiting(page: &mut String, first: Option<Request>) -> Result<(), AllocError>
    ensures { OnOk result (string_bytes page.new ≡ string_bytes page.old ++ waiting_text first) }
{
    match first {
        None => write!(page, "no request waits"),
        Some(request) => write_waiting_request(page, request),
    }
}

fn write_waiting_request(page: &mut String, request: Request) -> Result<(), AllocError>
    ensures { OnOk result (string_bytes page.new ≡ string_bytes page.old ++ waiting_text (Some request)) }
{
    write!(page, "the first request that waits is ")?;
    write_request(page, request)
}

fn write_outcome(page: &mut String, outcome: Option<Option<u64>>) -> Result<(), AllocError>
    ensures { OnOk result (string_bytes page.new ≡ string_bytes page.old ++ outcome_text outcome) }
{
    match outcome {
        None => write!(page, "the scheduler has made no step on the request"),
        Some(left) => write_told(page, left),
    }
}

fn write_told(page: &mut String, left: Option<u64>) -> Result<(), AllocError>
    ensures { OnOk result (string_bytes page.new ≡ string_bytes page.old ++ outcome_text (Some left)) }
{
    write!(page, "the scheduler's last step on the request told")?;
    write_left(page, left)
}

fn write_first(page: &mut String, first: Option<Mail>) -> Result<(), AllocError>
    ensures { OnOk result (string_bytes page.new ≡ string_bytes page.old ++ first_text first) }
{
    match first {
        None => write!(page, "the mailbox is empty"),
        Some(mail) => write_first_mail(page, mail),
    }
}

fn write_first_mail(page: &mut String, mail: Mail) -> Result<(), AllocError>
    ensures { OnOk result (string_bytes page.new ≡ string_bytes page.old ++ first_text (Some mail)) }
{
    write!(page, "the first message is ")?;
    write_mail(page, mail)
}

fn write_monitor(page: &mut String, stands: bool) -> Result<(), AllocError>
    ensures { OnOk result (string_bytes page.new ≡ string_bytes page.old ++ monitor_text stands) }
{
    if stands {
        write!(page, "the monitor stands")
    } else {
        write!(page, "the monitor doesn't stand")
    }
}
