ghost use Rattle.std.specs.Prelude.{◌≡◌};
ghost use Rattle.ert_script.specs.{Doing.label_asked, Keys.key_of_timer};

use crate::first::put_first;
use ert_defs::{NoMemory, TimerRef};
use ert_ops::{Op, Reply};
use std::alloc::Global;
use std::collections::BTreeMap;
use std::marker::Model;

/// Labels in the order in which they were bound, each with the timer that its start armed.
///
/// An index finds the timer of a label, and the label of a timer, each in a time that grows with the logarithm
/// of the number of labels.
#[derive(Drop)]
pub struct LabelMap {
    pairs: Vec<(u32, TimerRef)>,
    references: BTreeMap<u32, TimerRef>,
    labels: BTreeMap<(u32, u32, u64), u32>,
}

impl Model for LabelMap {
    ghost use Rattle.std.specs.BTreeMap as tree;
    ghost use Rattle.std.specs.Ordering.{nat_cmp};
    ghost use Rattle.ert_script.specs.{Keys.key_cmp, LabelMaps.AreFound};
    ghost use Rattle.ert_ops.specs.Labels.{Labels};

    ghost Value = { Labels };

    ghost view = { λ n. n.pairs.items };

    ghost invariant = { λ n. AreFound n.pairs.items (λ label. tree.get nat_cmp n.references label) (λ key. tree.get key_cmp n.labels key) };
}

/// A reference that never named a timer.
pub const NO_TIMER: TimerRef = TimerRef {
    wheel: 0,
    slot: 0,
    generation: 0,
};

impl LabelMap {
    ghost use Rattle.std.specs.Prelude.{◌≡◌, ◌++◌, [], OnOk, OnErr};
    ghost use Rattle.ert_script.specs.{LabelMaps.first_ref, Doing.{IsTimerOf, HasStarted}};
    ghost use Rattle.ert_ops.specs.{Labels.{bind, ref_of, label_of}, Scripts.labels_after};

    /// No label.
    pub fn new(alloc: Global) -> LabelMap
        ensures { result ≡ [] }
    {
        LabelMap {
            pairs: Vec::new(alloc),
            references: BTreeMap::new(alloc),
            labels: BTreeMap::new(alloc),
        }
    }

    /// The labels in order, each with its timer.
    pub fn pairs(&self) -> &[(u32, TimerRef)]
        ensures { result.now ≡ self.now }
    {
        &self.pairs
    }

    /// The timer of a label: that of the first start with it. A label that isn't bound stands for a reference
    /// that never named a timer, whose slot is the label.
    pub fn reference(&self, label: u32) -> TimerRef
        ensures { result ≡ ref_of self.now label }
    {
        match self.references.get(&label) {
            Some(timer) => *timer,
            None => TimerRef {
                wheel: 0,
                slot: label,
                generation: 0,
            },
        }
    }

    /// The timer of a label: that of the first start with it. None where it isn't bound.
    pub fn find(&self, label: u32) -> Option<TimerRef>
        ensures { result ≡ first_ref self.now label }
    {
        self.references.get(&label).copied()
    }

    /// The label of a timer: the first that was bound to it, and its slot where there is none. Of a reference
    /// that never named a timer it is the slot.
    pub fn label(&self, timer: &TimerRef) -> u32
        ensures { result ≡ label_of self.now timer.now }
    {
        if timer.generation == 0 {
            return timer.slot;
        }
        match self.labels.get(&key_of(timer)) {
            Some(label) => *label,
            None => timer.slot,
        }
    }

    /// Binds a label to a timer, as the last of the labels. Without memory nothing changes.
    pub fn bind(&mut self, label: u32, timer: &TimerRef) -> Result<(), NoMemory>
        ensures ok { OnOk result (self.new ≡ bind self.old label timer.now) }
        ensures err { OnErr result (self.new ≡ self.old) }
    {
        self.pairs.reserve(1)?;
        let is_new = put_first(&mut self.references, label, *timer)?;
        match put_first(&mut self.labels, key_of(timer), label) {
            Ok(_) => {
                self.pairs.push_reserved((label, *timer));
                Ok(())
            }
            Err(NoMemory) => {
                if is_new {
                    let _ = self.references.remove(&label);
                }
                Err(NoMemory)
            }
        }
    }

    /// The timer that an op cancels, reads or asks for, by its label. For another op any.
    pub fn timer_for(&self, op: &Op) -> TimerRef
        ensures { IsTimerOf self.now op.now result }
    {
        match label_asked(op) {
            Some(label) => self.reference(label),
            None => NO_TIMER,
        }
    }

    /// Binds the label of a start to the timer that it started, by its reply. Another op binds none. Without memory
    /// nothing changes.
    pub fn bind_started(&mut self, op: &Op, reply: &Reply) -> Result<(), NoMemory>
        ensures ok { OnOk result (self.new ≡ labels_after self.old op.now reply.now) }
        ensures err { OnErr result (self.new ≡ self.old) }
        ensures only { OnErr result (HasStarted op.now reply.now) }
    {
        match (*op, *reply) {
            (Op::Start { label, .. }, Reply::StartOk { timer }) => self.bind(label, &timer),
            (Op::SendAfter { label, .. }, Reply::SendAfterOk { timer }) => self.bind(label, &timer),
            _ => Ok(()),
        }
    }

    /// Binds labels as the last ones. Without memory some first ones of them may be bound.
    pub fn bind_all(&mut self, pairs: &[(u32, TimerRef)]) -> Result<(), NoMemory>
        ensures { OnOk result (self.new ≡ self.old ++ pairs.now) }
    {
        for (label, timer) in pairs {
            self.bind(*label, timer)?;
        }
        Ok(())
    }
}

// The key of a reference.
fn key_of(timer: &TimerRef) -> (u32, u32, u64)
    ensures { result ≡ key_of_timer timer.now }
{
    (timer.wheel, timer.slot, timer.generation)
}

/// The label of the timer that an op cancels, reads or asks for.
pub fn label_asked(op: &Op) -> Option<u32>
    ensures { result ≡ label_asked op.now }
{
    match *op {
        Op::Cancel { label }
        | Op::CancelQuiet { label }
        | Op::Read { label }
        | Op::CancelAsync { label, .. }
        | Op::ReadAsync { label, .. } => Some(label),
        _ => None,
    }
}
