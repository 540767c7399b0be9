//! The labels of starts.

ghost use Rattle.std.specs.Prelude.{◌≡◌, IsTrue, IfOk, IfErr};
ghost use Rattle.ert_scenario.specs.Labels.{started_label, AreUnset, is_free, with_flag, first_out};

use crate::ranges::is_op;
use crate::scenario::ScenarioErr;
use ert_defs::Settings;
use ert_ops::Op;
use std::alloc::{AllocError, Global};

/// How many labels there are: 0 to 999,999.
const LABELS: usize = 1_000_000;

/// The labels that starts have taken.
#[derive(Drop)]
pub(crate) struct Labels {
    /// A flag for each label.
    taken: Vec<bool>,
}

impl Labels {
    /// No label is taken.
    pub(crate) fn new(alloc: Global) -> Result<Labels, AllocError>
        ensures { IfOk result (λ l. AreUnset 1000000 l.taken.items) }
    {
        Ok(Labels {
            taken: flags(alloc, LABELS)?,
        })
    }

    /// Takes the label of a start, and tells whether it was free. An op that is no start takes none.
    fn take(&mut self, label: Option<u32>) -> bool
        ensures free { result ≡ is_free self.old.taken.items label }
        ensures taken { IsTrue result → self.new.taken.items ≡ with_flag self.old.taken.items label }
    {
        let Some(label) = label else {
            return true;
        };
        match self.taken.get_mut(label as usize) {
            Some(taken) if !*taken => {
                *taken = true;
                true
            }
            _ => false,
        }
    }
}

/// So many flags, none of them set.
#[tactic(auto, using(crate::proofs::Tested::are_free))]
fn flags(alloc: Global, count: usize) -> Result<Vec<bool>, AllocError>
    ensures { IfOk result (λ taken. AreUnset count taken.items) }
{
    vec![in alloc; false; count]
}

/// The place of the first op that is out of range, or a start whose label an earlier one has; the ops have
/// the places 1, 2 and so on.
pub(crate) fn first_out(
    labels: &mut Labels,
    settings: &Settings,
    ops: &[Op],
) -> Result<Option<u32>, ScenarioErr>
    ensures ok { IfOk result (λ place. place ≡ first_out settings.now labels.old.taken.items 1 ops.now) }
    ensures err { IfErr result (λ e. e ≡ ScenarioErr.NoMemory) }
{
    for (i, op) in ops.iter().enumerate() {
        if !is_op(settings, *op) || !labels.take(started_label(*op)) {
            // No input within the limit of its length has so many ops.
            return u32::try_from(i + 1)
                .map(Some)
                .map_err(|_| ScenarioErr::NoMemory);
        }
    }
    Ok(None)
}

/// The label of an op that starts a timer.
#[tactic(auto, unfolding(crate::specs::Labels::started_label))]
fn started_label(op: Op) -> Option<u32>
    ensures { result ≡ started_label op }
{
    match op {
        Op::Start { label, .. } | Op::SendAfter { label, .. } => Some(label),
        _ => None,
    }
}
