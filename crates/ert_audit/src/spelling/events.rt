//! Events: a function for each, that reads its fields.

ghost use Rattle.std.specs.Prelude.{◌≡◌};
ghost use Rattle.ert_audit.specs.{Cuts.words_of, Readers.{value_and_rest, read_named}, Events.{read_tick, read_shift, read_look, read_off, read_arm, read_probe, read_peek, read_cancel, read_expire, read_orphan, read_deliver, read_drop}};
ghost use Rattle.ert_audit.specs.{Events.{read_mark, read_advanced, read_ask, read_pick, read_answer, read_take, read_unwatch, read_watch, read_tell, event_rows, later_rows, read_event}};

use crate::spelling::mails::{picked, request, taken};
use crate::spelling::numbers::{integer, natural, small};
use crate::spelling::settings::{act, reading, state};
use crate::spelling::timers::{found, left, start, timer};
use crate::spelling::words::{Words, next_text, truth};
use ert_defs::Event;

/// An event: its name, and its fields.
#[tactic(auto, unfolding(crate::specs::Events::read_event))]
pub(crate) fn event(words: &mut Words) -> Option<Event>
    ensures { value_and_rest result words.new ≡ read_event (words_of words.old) }
{
    named(next_text(words)?, words)
}

/// The event of this name.
fn named(name: &str, words: &mut Words) -> Option<Event>
    ensures { value_and_rest result words.new ≡ read_named name.now event_rows (words_of words.old) }
{
    match name {
        "tick" => tick(words),
        "shift" => shift(words),
        "look" => look(words),
        "off" => off(words),
        "arm" => arm(words),
        "probe" => probe(words),
        "peek" => peek(words),
        "cancel" => cancel(words),
        "expire" => expire(words),
        "orphan" => orphan(words),
        "deliver" => deliver(words),
        "drop" => drop(words),
        _ => named_later(name, words),
    }
}

/// The event of this name, of those that are no timer's and not the clock's.
fn named_later(name: &str, words: &mut Words) -> Option<Event>
    ensures { value_and_rest result words.new ≡ read_named name.now later_rows (words_of words.old) }
{
    match name {
        "mark" => mark(words),
        "advanced" => advanced(words),
        "ask" => ask(words),
        "pick" => pick(words),
        "answer" => answer(words),
        "take" => take(words),
        "unwatch" => unwatch(words),
        "watch" => watch(words),
        "tell" => tell(words),
        _ => None,
    }
}

/// An OS reading was taken.
#[tactic(auto, unfolding(crate::specs::Events::read_tick))]
fn tick(words: &mut Words) -> Option<Event>
    ensures { value_and_rest result words.new ≡ read_tick (words_of words.old) }
{
    let reading = reading(words)?;
    let act = act(words)?;
    let now = integer(words)?;
    Some(Event::Tick { reading, act, now })
}

/// The offset and its state were set.
#[tactic(auto, unfolding(crate::specs::Events::read_shift))]
fn shift(words: &mut Words) -> Option<Event>
    ensures { value_and_rest result words.new ≡ read_shift (words_of words.old) }
{
    let offset = integer(words)?;
    let state = state(words)?;
    Some(Event::Shift { offset, state })
}

/// The time was read.
#[tactic(auto, unfolding(crate::specs::Events::read_look))]
fn look(words: &mut Words) -> Option<Event>
    ensures { value_and_rest result words.new ≡ read_look (words_of words.old) }
{
    let now = integer(words)?;
    Some(Event::Look { now })
}

/// The offset was read.
#[tactic(auto, unfolding(crate::specs::Events::read_off))]
fn off(words: &mut Words) -> Option<Event>
    ensures { value_and_rest result words.new ≡ read_off (words_of words.old) }
{
    let offset = integer(words)?;
    let state = state(words)?;
    Some(Event::Off { offset, state })
}

/// A timer was started.
#[tactic(auto, unfolding(crate::specs::Events::read_arm))]
fn arm(words: &mut Words) -> Option<Event>
    ensures { value_and_rest result words.new ≡ read_arm (words_of words.old) }
{
    let timer = timer(words)?;
    let start = start(words)?;
    Some(Event::Arm { timer, start })
}

/// The last timer of a slot was looked at.
#[tactic(auto, unfolding(crate::specs::Events::read_probe))]
fn probe(words: &mut Words) -> Option<Event>
    ensures { value_and_rest result words.new ≡ read_probe (words_of words.old) }
{
    let wheel = small(words)?;
    let slot = small(words)?;
    let found = found(words)?;
    Some(Event::Probe { wheel, slot, found })
}

/// A timer was read.
#[tactic(auto, unfolding(crate::specs::Events::read_peek))]
fn peek(words: &mut Words) -> Option<Event>
    ensures { value_and_rest result words.new ≡ read_peek (words_of words.old) }
{
    let timer = timer(words)?;
    let left = left(words)?;
    Some(Event::Peek { timer, left })
}

/// A timer was cancelled.
#[tactic(auto, unfolding(crate::specs::Events::read_cancel))]
fn cancel(words: &mut Words) -> Option<Event>
    ensures { value_and_rest result words.new ≡ read_cancel (words_of words.old) }
{
    let timer = timer(words)?;
    let left = left(words)?;
    Some(Event::Cancel { timer, left })
}

/// A timer expired.
#[tactic(auto, unfolding(crate::specs::Events::read_expire))]
fn expire(words: &mut Words) -> Option<Event>
    ensures { value_and_rest result words.new ≡ read_expire (words_of words.old) }
{
    let timer = timer(words)?;
    Some(Event::Expire { timer })
}

/// A timer whose destination has exited was cancelled.
#[tactic(auto, unfolding(crate::specs::Events::read_orphan))]
fn orphan(words: &mut Words) -> Option<Event>
    ensures { value_and_rest result words.new ≡ read_orphan (words_of words.old) }
{
    let timer = timer(words)?;
    Some(Event::Orphan { timer })
}

/// A message was put into its mailbox.
#[tactic(auto, unfolding(crate::specs::Events::read_deliver))]
fn deliver(words: &mut Words) -> Option<Event>
    ensures { value_and_rest result words.new ≡ read_deliver (words_of words.old) }
{
    let timer = timer(words)?;
    Some(Event::Deliver { timer })
}

/// A message was thrown away.
#[tactic(auto, unfolding(crate::specs::Events::read_drop))]
fn drop(words: &mut Words) -> Option<Event>
    ensures { value_and_rest result words.new ≡ read_drop (words_of words.old) }
{
    let timer = timer(words)?;
    Some(Event::Drop { timer })
}

/// It was seen whether a process had exited.
#[tactic(auto, unfolding(crate::specs::Events::read_mark))]
fn mark(words: &mut Words) -> Option<Event>
    ensures { value_and_rest result words.new ≡ read_mark (words_of words.old) }
{
    let process = small(words)?;
    let exits = truth(words)?;
    let was = truth(words)?;
    Some(Event::Mark {
        process,
        exits,
        was,
    })
}

/// The timers of a wheel that were due have been settled.
#[tactic(auto, unfolding(crate::specs::Events::read_advanced))]
fn advanced(words: &mut Words) -> Option<Event>
    ensures { value_and_rest result words.new ≡ read_advanced (words_of words.old) }
{
    let wheel = small(words)?;
    let to = natural(words)?;
    Some(Event::Advanced { wheel, to })
}

/// A request was put into an inbox.
#[tactic(auto, unfolding(crate::specs::Events::read_ask))]
fn ask(words: &mut Words) -> Option<Event>
    ensures { value_and_rest result words.new ≡ read_ask (words_of words.old) }
{
    let wheel = small(words)?;
    let request = request(words)?;
    Some(Event::Ask { wheel, request })
}

/// The first request of an inbox was taken.
#[tactic(auto, unfolding(crate::specs::Events::read_pick))]
fn pick(words: &mut Words) -> Option<Event>
    ensures { value_and_rest result words.new ≡ read_pick (words_of words.old) }
{
    let wheel = small(words)?;
    let got = picked(words)?;
    Some(Event::Pick { wheel, got })
}

/// The request in the hand was answered.
#[tactic(auto, unfolding(crate::specs::Events::read_answer))]
fn answer(words: &mut Words) -> Option<Event>
    ensures { value_and_rest result words.new ≡ read_answer (words_of words.old) }
{
    let wheel = small(words)?;
    let left = left(words)?;
    Some(Event::Answer { wheel, left })
}

/// The first message of a mailbox was taken.
#[tactic(auto, unfolding(crate::specs::Events::read_take))]
fn take(words: &mut Words) -> Option<Event>
    ensures { value_and_rest result words.new ≡ read_take (words_of words.old) }
{
    let process = small(words)?;
    let got = taken(words)?;
    Some(Event::Take { process, got })
}

/// A monitor was removed.
#[tactic(auto, unfolding(crate::specs::Events::read_unwatch))]
fn unwatch(words: &mut Words) -> Option<Event>
    ensures { value_and_rest result words.new ≡ read_unwatch (words_of words.old) }
{
    let process = small(words)?;
    let monitor = small(words)?;
    let was = truth(words)?;
    Some(Event::Unwatch {
        process,
        monitor,
        was,
    })
}

/// A monitor of the time offset was made.
#[tactic(auto, unfolding(crate::specs::Events::read_watch))]
fn watch(words: &mut Words) -> Option<Event>
    ensures { value_and_rest result words.new ≡ read_watch (words_of words.old) }
{
    let process = small(words)?;
    let monitor = small(words)?;
    let offset = integer(words)?;
    Some(Event::Watch {
        process,
        monitor,
        offset,
    })
}

/// A process was told the offset.
#[tactic(auto, unfolding(crate::specs::Events::read_tell))]
fn tell(words: &mut Words) -> Option<Event>
    ensures { value_and_rest result words.new ≡ read_tell (words_of words.old) }
{
    let process = small(words)?;
    let offset = integer(words)?;
    Some(Event::Tell { process, offset })
}
