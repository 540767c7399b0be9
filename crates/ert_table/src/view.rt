ghost use Rattle.ert_table.specs.{Rule.Holds, Views.first_view};

use atomic_table::TableRule;
use ert_defs::{Actor, Entry, Settings};
use std::collections::LinkedList;

/// What a pass knows. No value of it is made: it stands in contracts and proofs alone.
pub struct View {
    /// A beginning of the history of the desk.
    pub front: LinkedList<Entry>,
    /// The actors that the pass holds.
    pub actors: LinkedList<Actor>,
    /// The settings of the desk, unless the pass was joined to another.
    pub settings: Option<Settings>,
    /// The two passes that met, where this one has just been joined of them.
    pub met: Option<Met>,
}

/// Two passes of which one was made. No value of it is made.
pub struct Met {
    pub front: LinkedList<Entry>,
    pub actors: LinkedList<Actor>,
    pub other_front: LinkedList<Entry>,
    pub other_actors: LinkedList<Actor>,
}

/// The rule of the table: the words are those of one legal history, which each pass knows a beginning of.
pub struct HistoryRule;

impl TableRule<(), View, Settings> for HistoryRule {
    ghost holds = { λ g s. Holds g s.words s.views };

    ghost first = { first_view };
}
