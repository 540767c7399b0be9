//! The monitors of the time offset that a process has (`erlang` module reference, `monitor`, type `time_offset`),
//! and what is done with the list of them: find one, remove one, and tell each an offset that is new to it.
//!
//! The mailboxes of the service and those of the auditor keep such a list, in order of number, beside a queue of
//! messages. Nothing here takes memory: who tells makes room in the queue before.

ghost use Rattle.std.specs.Prelude.{◌≡◌, ◌≤◌, ◌<◌, ◌+◌, [], ◌∷◌, ◌++◌, length, vec_len};
ghost use Rattle.std.specs.VecDeque.{deque_len, deque_capacity};
ghost use Rattle.ert_defs.specs.{Legal.stands_in, Mails.{changes_of, told_of, without}};

use crate::{Mail, Monitor};
use std::collections::VecDeque;

/// Whether a monitor of a number stands.
pub fn has_monitor(monitors: &[Monitor], number: u32) -> bool
    ensures { result ≡ stands_in number monitors.now }
{
    for monitor in monitors {
        if monitor.number == number {
            return true;
        }
    }
    false
}

/// Removes the monitor of a number, where it stands.
pub fn remove_monitor(monitors: &mut Vec<Monitor>, number: u32)
    ensures monitors { monitors.new.items ≡ without number monitors.old.items }
    ensures few { vec_len monitors.new ≤ vec_len monitors.old }
{
    monitors.retain(|monitor| monitor.number != number);
}

/// Puts a message for each monitor that an offset is new to, and counts the offset as told. The queue has
/// room for a message to each. The answer is how many were put.
pub fn notify_monitors(monitors: &mut [Monitor], queue: &mut VecDeque<Mail>, offset: i64) -> usize
    requires { deque_len queue.old + length monitors.old ≤ deque_capacity queue.old }
    ensures queue { queue.new.items ≡ queue.old.items ++ changes_of offset monitors.old }
    ensures monitors { monitors.new ≡ told_of offset monitors.old }
    ensures put { result ≡ length (changes_of offset monitors.old) }
    ensures few { result ≤ length monitors.old }
{
    let mut put = 0;
    for i in 0..monitors.len() {
        put += put_change(queue, monitors[i], offset);
        monitors[i].told = offset;
    }
    put
}

/// Puts a message for a monitor where an offset is new to it. The answer is how many were put.
fn put_change(queue: &mut VecDeque<Mail>, monitor: Monitor, offset: i64) -> usize
    requires { deque_len queue.old < deque_capacity queue.old }
    ensures queue { queue.new.items ≡ queue.old.items ++ changes_of offset (monitor ∷ []) }
    ensures put { result ≡ length (changes_of offset (monitor ∷ [])) }
    ensures len { deque_len queue.new ≡ deque_len queue.old + result }
    ensures capacity { deque_capacity queue.new ≡ deque_capacity queue.old }
    ensures one { result ≤ 1 }
{
    if monitor.told == offset {
        return 0;
    }
    queue.push_back_reserved(Mail::Change {
        monitor: monitor.number,
        offset,
    });
    1
}
