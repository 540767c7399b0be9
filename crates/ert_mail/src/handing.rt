//! The steps by which an expired timer is handed over.
ghost use Rattle.std.specs.Prelude.{◌≡◌, ◌<◌, Some};
ghost use Rattle.ert_defs.specs.Mails.{first_of};
ghost use Rattle.ert_table.specs.Desks.{settings_of, view_of, state_of, Belongs};
ghost use Rattle.ert_mail.specs.{Mailboxes.HoldsMailboxAndSched, Steps.IsHanded};

use ert_defs::{Actor, TimerRow};
use ert_effects::Handed;
use ert_table::{Desk, Pass, Settle};

/// Looks whether the destination of its scheduler's first expired timer has exited, and then records that
/// its message is put, or that it is thrown away.
#[inline(always)]
pub(crate) fn hand_over(desk: &Desk, pass: &mut Pass, expired: &TimerRow) -> Handed
    requires belongs { Belongs desk.now pass.old }
    requires holds { HoldsMailboxAndSched (settings_of desk.now) (view_of pass.old) expired.now.timer.wheel expired.now.dest }
    requires in_range { expired.now.dest < (settings_of desk.now).processes }
    requires first { first_of ((state_of desk.now pass.old).scheds expired.now.timer.wheel).expired ≡ Some expired.now }
    ensures belongs { Belongs desk.now pass.new }
    ensures steps { IsHanded (settings_of desk.now) (view_of pass.old) expired.now result (view_of pass.new) }
{
    let by = Actor::Sched(expired.timer.wheel);
    if pass.mark(desk, by, expired.dest, false) {
        pass.settle(desk, by, expired.timer, expired.deadline, Settle::Drop);
        return Handed::Dropped;
    }
    pass.settle(desk, by, expired.timer, expired.deadline, Settle::Deliver);
    Handed::Put
}
