//! Why an entry isn't in range: another actor makes it or it is made with another, or it names one whose
//! number isn't below their count.

ghost use Rattle.std.specs.Prelude.{◌≡◌, ◌↔◌, IsTrue, IfSome, IfNone};
ghost use Rattle.ert_judge.specs.{Ranges.{maker_of, partner_of, reads_with, wheel_of_event, slot_of_event, process_of, count_of_kind, high, high_by, high_with, too_high, IsMadeBy, IsMadeWith, MayBeInRange}, Reasons.BreaksRange};

use crate::reasons::{Counted, Maker, Partner, Reason};
use ert_defs::{Actor, Entry, Event, Settings};

/// Why an entry isn't in range, where it isn't.
pub fn out_of_range(settings: &Settings, entry: &Entry) -> Option<Reason>
    ensures some { IfSome result (BreaksRange settings.now entry.now) }
    ensures none { IfNone result (MayBeInRange settings.now entry.now) }
{
    let maker = maker_of(&entry.event);
    if !is_made_by(maker, entry.by) {
        return Some(Reason::NotBy(maker));
    }
    let partner = partner_of(entry.by, &entry.event);
    if !is_made_with(partner, entry.with) {
        return Some(Reason::NotWith(partner));
    }
    too_high(settings, entry)
}

/// Who makes an event.
fn maker_of(event: &Event) -> Maker
    ensures { result ≡ maker_of event.now }
{
    match *event {
        Event::Tick { .. } | Event::Shift { .. } => Maker::Clock,
        Event::Off { .. } => Maker::Reader,
        Event::Look { .. } | Event::Peek { .. } | Event::Cancel { .. } | Event::Mark { .. } => {
            Maker::User
        }
        Event::Probe { wheel, .. } => Maker::CallerOr(wheel),
        Event::Expire { timer } | Event::Deliver { timer } | Event::Drop { timer } => {
            Maker::Scheduler(timer.wheel)
        }
        Event::Advanced { wheel, .. } | Event::Pick { wheel, .. } | Event::Answer { wheel, .. } => {
            Maker::Scheduler(wheel)
        }
        Event::Arm { .. }
        | Event::Orphan { .. }
        | Event::Ask { .. }
        | Event::Take { .. }
        | Event::Unwatch { .. }
        | Event::Watch { .. }
        | Event::Tell { .. } => Maker::AnyCaller,
    }
}

/// Whether an actor may make such an event, whatever the count of its kind.
fn is_made_by(maker: Maker, by: Actor) -> bool
    ensures { IsTrue result ↔ IsMadeBy maker by }
{
    match maker {
        Maker::Clock => by == Actor::Keeper,
        Maker::Scheduler(number) => by == Actor::Sched(number),
        Maker::AnyCaller => matches!(by, Actor::Caller(_)),
        Maker::User => matches!(by, Actor::Caller(_) | Actor::Sched(_)),
        Maker::CallerOr(number) => is_caller_or(number, by),
        Maker::Reader => matches!(by, Actor::Keeper | Actor::Caller(_) | Actor::Sched(_)),
    }
}

fn is_caller_or(number: u32, by: Actor) -> bool
    ensures { IsTrue result ↔ IsMadeBy (Maker.CallerOr number) by }
{
    match by {
        Actor::Caller(_) => true,
        Actor::Sched(scheduler) => scheduler == number,
        _ => false,
    }
}

/// With whom an event is made by an actor.
fn partner_of(by: Actor, event: &Event) -> Partner
    ensures { result ≡ partner_of by event.now }
{
    match *event {
        Event::Tick { .. } | Event::Shift { .. } => Partner::SomeCaller,
        Event::Off { .. } => reads_with(by),
        Event::Look { .. }
        | Event::Peek { .. }
        | Event::Cancel { .. }
        | Event::Drop { .. }
        | Event::Mark { .. } => Partner::Nobody,
        Event::Arm { timer, .. } | Event::Expire { timer } | Event::Orphan { timer } => {
            Partner::Exactly(Actor::Wheel(timer.wheel))
        }
        Event::Probe { wheel, .. } | Event::Advanced { wheel, .. } => {
            Partner::Exactly(Actor::Wheel(wheel))
        }
        Event::Deliver { .. } | Event::Answer { .. } => Partner::SomeMailbox,
        Event::Ask { wheel, .. } | Event::Pick { wheel, .. } => {
            Partner::Exactly(Actor::Inbox(wheel))
        }
        Event::Take { process, .. }
        | Event::Unwatch { process, .. }
        | Event::Watch { process, .. }
        | Event::Tell { process, .. } => Partner::Exactly(Actor::MailOf(process)),
    }
}

/// With whom the offset is read.
fn reads_with(by: Actor) -> Partner
    ensures { result ≡ reads_with by }
{
    match by {
        Actor::Keeper => Partner::SomeCaller,
        _ => Partner::Nobody,
    }
}

/// Whether an event may be made with a second actor, whatever the count of its kind.
fn is_made_with(partner: Partner, with: Option<Actor>) -> bool
    ensures { IsTrue result ↔ IsMadeWith partner with }
{
    match partner {
        Partner::Nobody => with.is_none(),
        Partner::Exactly(actor) => with == Some(actor),
        Partner::SomeCaller => matches!(with, Some(Actor::Caller(_))),
        Partner::SomeMailbox => matches!(with, Some(Actor::MailOf(_))),
    }
}

/// The first that an entry names whose number isn't below their count: as who made it, as with whom, and as
/// the scheduler, the slot and the process of its event.
fn too_high(settings: &Settings, entry: &Entry) -> Option<Reason>
    ensures { result ≡ too_high settings.now entry.now }
{
    let (wheel, slot) = place_of(&entry.event);
    high_by(settings, entry.by)
        .or(high_with(settings, entry.with))
        .or(high(settings, Counted::Schedulers, wheel))
        .or(high(settings, Counted::Slots, slot))
        .or(high(settings, Counted::Processes, process_of(&entry.event)))
}

/// The number of who made an entry, where it isn't below their count.
fn high_by(settings: &Settings, by: Actor) -> Option<Reason>
    ensures { result ≡ high_by settings.now by }
{
    match by {
        Actor::Caller(number) => high(settings, Counted::Callers, Some(number)),
        Actor::Sched(number) => high(settings, Counted::Schedulers, Some(number)),
        _ => None,
    }
}

/// And that of with whom.
fn high_with(settings: &Settings, with: Option<Actor>) -> Option<Reason>
    ensures { result ≡ high_with settings.now with }
{
    match with {
        Some(Actor::Caller(number)) => high(settings, Counted::Callers, Some(number)),
        Some(Actor::MailOf(number)) => high(settings, Counted::Processes, Some(number)),
        _ => None,
    }
}

/// A number, where there is one and it isn't below the count of its kind.
fn high(settings: &Settings, thing: Counted, number: Option<u32>) -> Option<Reason>
    ensures { result ≡ high settings.now thing number }
{
    let number = number?;
    let count = count_of(settings, thing);
    if count <= number {
        Some(Reason::TooHigh {
            thing,
            number,
            count,
        })
    } else {
        None
    }
}

/// How many there are of a kind.
fn count_of(settings: &Settings, thing: Counted) -> u32
    ensures { result ≡ count_of_kind settings.now thing }
{
    match thing {
        Counted::Callers => settings.callers,
        Counted::Schedulers => settings.schedulers,
        Counted::Processes => settings.processes,
        Counted::Slots => settings.slots,
    }
}

/// The scheduler whose timers or inbox an event is about, and the slot that it is about.
fn place_of(event: &Event) -> (Option<u32>, Option<u32>)
    ensures wheel { result.0 ≡ wheel_of_event event.now }
    ensures slot { result.1 ≡ slot_of_event event.now }
{
    match *event {
        Event::Arm { timer, .. }
        | Event::Peek { timer, .. }
        | Event::Cancel { timer, .. }
        | Event::Expire { timer }
        | Event::Orphan { timer }
        | Event::Deliver { timer }
        | Event::Drop { timer } => (Some(timer.wheel), Some(timer.slot)),
        Event::Probe { wheel, slot, .. } => (Some(wheel), Some(slot)),
        Event::Advanced { wheel, .. }
        | Event::Ask { wheel, .. }
        | Event::Pick { wheel, .. }
        | Event::Answer { wheel, .. } => (Some(wheel), None),
        _ => (None, None),
    }
}

/// The process that an event names.
fn process_of(event: &Event) -> Option<u32>
    ensures { result ≡ process_of event.now }
{
    match *event {
        Event::Arm { start, .. } => Some(start.dest),
        Event::Ask { request, .. } => Some(request.reply_to),
        Event::Mark { process, .. }
        | Event::Take { process, .. }
        | Event::Unwatch { process, .. }
        | Event::Watch { process, .. }
        | Event::Tell { process, .. } => Some(process),
        _ => None,
    }
}
