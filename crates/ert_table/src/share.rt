//! What a pass may have of a desk.
use ert_defs::Settings;

/// The numbers from one on, below another.
#[derive(Clone, Copy, Debug, PartialEq, Eq)]
pub struct Span {
    pub from: u32,
    pub to: u32,
}

impl Span {
    ghost use Rattle.std.specs.Prelude.{◌↔◌, IsTrue};
    ghost use Rattle.ert_table.specs.Shares.{IsWithin};

    /// Whether a number is among them.
    #[inline(always)]
    pub fn has(&self, number: u32) -> bool
        ensures { IsTrue result ↔ IsWithin self.now number }
    {
        self.from <= number && number < self.to
    }
}

/// A share of a desk: the schedulers, with their wheels and inboxes, the processes and the callers of three spans. The clock
/// is with caller 0.
#[derive(Clone, Copy, Debug, PartialEq, Eq)]
pub struct Share {
    pub scheds: Span,
    pub processes: Span,
    pub callers: Span,
}

impl Share {
    ghost use Rattle.std.specs.Prelude.{◌≡◌};
    ghost use Rattle.ert_table.specs.Shares.{whole_share};

    /// The share of a desk with these settings that has every actor.
    pub fn whole(settings: &Settings) -> Share
        ensures { result ≡ whole_share settings.now }
    {
        Share {
            scheds: Span {
                from: 0,
                to: settings.schedulers,
            },
            processes: Span {
                from: 0,
                to: settings.processes,
            },
            callers: Span {
                from: 0,
                to: settings.callers,
            },
        }
    }
}
