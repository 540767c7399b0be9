ghost use Rattle.std.specs.Prelude.{◌≡◌, ◌+◌, []};
ghost use Rattle.ert_defs.specs.{Settings.IsChecked, Words.{word_count, wheel_width, wheels_width}};
ghost use Rattle.ert_table.specs.Rule.{IsLegalBy};

use crate::view::{HistoryRule, View};
use atomic_table::{Seat, Table};
use ert_defs::Settings;
use std::alloc::Global;

/// One clock and timer service: its atomic words, which threads share by a `&`.
#[derive(Drop)]
pub struct Desk {
    pub(crate) table: Table<(), View, Settings, HistoryRule, Global>,
    pub(crate) settings: Settings,
    // How many words a wheel takes, and the place of the first process: so no step computes them.
    pub(crate) width: usize,
    pub(crate) first_process: usize,
    ghost keyed: { table.shared.key ≡ settings },
    ghost checked: { IsChecked settings },
    ghost counted: { table.shared.table_id.words ≡ word_count settings },
    ghost no_slots: { table.shared.table_id.slots ≡ 0 },
    ghost wide: { width ≡ wheel_width settings },
    ghost behind: { first_process ≡ 24 + wheels_width settings },
}

/// The right of a thread to step as some actors, and what it knows of the history. It has no bytes.
#[derive(Drop)]
pub struct Pass {
    pub(crate) seat: Seat<(), View>,
    ghost bare: { seat.me.1 ≡ [] },
    ghost legal: { ∥ IsLegalBy seat.me.0.settings seat.me.0.front ∥₁ },
}

/// The words of a desk that was closed.
#[derive(Debug, Drop, PartialEq, Eq)]
pub struct Words {
    /// The nanoseconds since the start time.
    pub time: u64,
    /// The time offset and whether it is final.
    pub offset: u64,
    /// The word of the slot `s` of the wheel `w` is `timers[w * slots + s]`.
    pub timers: Vec<u64>,
    /// 1 for each process that has exited, else 0.
    pub processes: Vec<u64>,
}
