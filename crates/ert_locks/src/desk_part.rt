//! What stands behind a lock, and what a seat has: a part of a desk with an actor of its own.
ghost use Rattle.std.specs.Prelude.{◌≡◌};
ghost use Rattle.ert_locks.specs.Kinds.{Kind, IsKind};

use ert_defs::Actor;
use ert_mail::{InboxPart, MailPart};
use ert_table::KeeperPart;
use ert_timers::{SchedPart, WheelPart};

/// A part of a desk, which has one actor and stands for a history.
pub trait DeskPart {
    /// what all parts of this kind have
    ghost kind: { Kind Self };

    /// The number of the part among its kind.
    fn own_number(&self) -> u32
        ensures { result ≡ kind.number self.now };

    /// The actor of the part.
    fn own_actor(&self) -> Actor
        ensures { result ≡ kind.actor (kind.number self.now) };

    ghost is_kind: { IsKind kind };
}

impl DeskPart for KeeperPart {
    ghost use Rattle.ert_locks.specs.{KindLaws.keepers_are, Kinds.keepers};

    ghost kind = { keepers };

    fn own_number(&self) -> u32 {
        0
    }

    fn own_actor(&self) -> Actor {
        Actor::Keeper
    }

    ghost is_kind = { keepers_are };
}

impl DeskPart for WheelPart {
    ghost use Rattle.ert_locks.specs.{KindLaws.wheels_are, Kinds.wheels};

    ghost kind = { wheels };

    fn own_number(&self) -> u32 {
        self.number()
    }

    fn own_actor(&self) -> Actor {
        Actor::Wheel(self.number())
    }

    ghost is_kind = { wheels_are };
}

impl DeskPart for InboxPart {
    ghost use Rattle.ert_locks.specs.{KindLaws.inboxes_are, Kinds.inboxes};

    ghost kind = { inboxes };

    fn own_number(&self) -> u32 {
        self.wheel()
    }

    fn own_actor(&self) -> Actor {
        Actor::Inbox(self.wheel())
    }

    ghost is_kind = { inboxes_are };
}

impl DeskPart for MailPart {
    ghost use Rattle.ert_locks.specs.{KindLaws.mails_are, Kinds.mails};

    ghost kind = { mails };

    fn own_number(&self) -> u32 {
        self.process()
    }

    fn own_actor(&self) -> Actor {
        Actor::MailOf(self.process())
    }

    ghost is_kind = { mails_are };
}

/// A scheduler has its own part.
impl DeskPart for SchedPart {
    ghost use Rattle.ert_locks.specs.{KindLaws.scheds_are, Kinds.scheds};

    ghost kind = { scheds };

    fn own_number(&self) -> u32 {
        self.wheel
    }

    fn own_actor(&self) -> Actor {
        Actor::Sched(self.wheel)
    }

    ghost is_kind = { scheds_are };
}

/// A caller has its number alone.
impl DeskPart for u32 {
    ghost use Rattle.ert_locks.specs.{KindLaws.callers_are, Kinds.callers};

    ghost kind = { callers };

    fn own_number(&self) -> u32 {
        *self
    }

    fn own_actor(&self) -> Actor {
        Actor::Caller(*self)
    }

    ghost is_kind = { callers_are };
}
