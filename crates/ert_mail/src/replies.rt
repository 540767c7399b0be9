//! The steps by which an asynchronous request is answered.
ghost use Rattle.std.specs.Prelude.{◌≡◌, ◌+◌, ◌<◌, ◌≤◌, ◌++◌, true, Some};
ghost use Rattle.std.specs.VecDeque.{deque_len, deque_capacity};
ghost use Rattle.ert_effects.specs.RequestCalls.{DoesAsked};
ghost use Rattle.ert_defs.specs.{Mails.answer_of, declared.entry.Actor.TheVariants.Sched};
ghost use Rattle.ert_table.specs.{Desks.{settings_of, view_of, actors_of, state_of, Belongs}, Held.is_held, Calls.IsMade};
ghost use Rattle.ert_mail.specs.{Mailboxes.HoldsMailboxAndSched, Steps.IsReplied};

use ert_defs::{Actor, Mail, Request, RequestKind};
use ert_table::{Desk, Pass, TimeCarry};
use std::collections::VecDeque;

/// Cancels or reads the timer of the request in a scheduler's hand, and records the answer. It tells the
/// whole milliseconds that were left.
pub(crate) fn reply(desk: &Desk, pass: &mut Pass, sched: u32, request: &Request) -> Option<u64>
    requires belongs { Belongs desk.now pass.old }
    requires holds { HoldsMailboxAndSched (settings_of desk.now) (view_of pass.old) sched request.now.reply_to }
    requires in_range { request.now.reply_to < (settings_of desk.now).processes }
    requires hand { ((state_of desk.now pass.old).scheds sched).hand ≡ Some request.now }
    ensures belongs { Belongs desk.now pass.new }
    ensures steps { IsReplied (settings_of desk.now) (view_of pass.old) sched request.now result (view_of pass.new) }
{
    let left = do_asked(desk, pass, sched, request);
    let carry = TimeCarry::Answer {
        left,
        process: request.reply_to,
    };
    pass.load_time(desk, Actor::Sched(sched), &carry);
    left
}

/// Cancels or reads the timer of a request.
fn do_asked(desk: &Desk, pass: &mut Pass, sched: u32, request: &Request) -> Option<u64>
    requires belongs { Belongs desk.now pass.old }
    requires held { is_held (actors_of pass.old) (Sched sched) ≡ true }
    requires below { sched < (settings_of desk.now).schedulers }
    ensures belongs { Belongs desk.now pass.new }
    ensures steps { IsMade (settings_of desk.now) (view_of pass.old)
        (DoesAsked request.now.kind (settings_of desk.now) sched request.now.timer result) (view_of pass.new) }
{
    let by = Actor::Sched(sched);
    match request.kind {
        RequestKind::Cancel => pass.cancel_timer(desk, by, request.timer),
        RequestKind::Read => pass.read_timer(desk, by, request.timer),
    }
}

/// Puts the answer to a request last, where one is wanted.
pub(crate) fn put_answer(queue: &mut VecDeque<Mail>, request: &Request, left: Option<u64>)
    requires { deque_len queue.old < deque_capacity queue.old }
    ensures items { queue.new.items ≡ queue.old.items ++ answer_of request.now left }
    ensures len { deque_len queue.new ≤ deque_len queue.old + 1 }
    ensures capacity { deque_capacity queue.new ≡ deque_capacity queue.old }
{
    if request.info {
        queue.push_back_reserved(Mail::of_answer(request, left));
    }
}
