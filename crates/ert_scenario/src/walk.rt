ghost use Rattle.std.specs.Prelude.{◌≡◌, ◌∷◌, [], List, None, OnOk, IfOk, IfErr};
ghost use Rattle.ert_scenario.specs.{Kinds.FoundOrFault, Walks.first_shape, Walked.{WalkIsAt, IsShapeAt}};
ghost use Rattle.ert_ops.specs.declared.op.Op.{Op as AnOp};

use crate::fault::Fault;
use crate::scenario::ScenarioErr;
use ert_ops::Op;
use std::alloc::Global;

/// The walk over the ops of a scenario.
///
/// A range fault doesn't end it, since a shape fault at a later place is what counts. From then on no op
/// is kept.
#[derive(Drop)]
pub(crate) struct Walk {
    pub(crate) ops: Vec<Op>,
    /// The place of the first range fault.
    pub(crate) range: Option<u32>,
    /// The place of the next op.
    pub(crate) place: u32,
}

impl Walk {
    /// A walk that has met nothing yet, with room for so many ops.
    pub(crate) fn new(alloc: Global, room: usize) -> Result<Walk, ScenarioErr>
        ensures empty { IfOk result (λ w. w.ops.items ≡ []) }
        ensures faultless { IfOk result (λ w. w.range ≡ None) }
        ensures first { IfOk result (λ w. w.place ≡ 1) }
        ensures err { IfErr result (λ e. e ≡ ScenarioErr.NoMemory) }
    {
        match Vec::with_capacity(alloc, room) {
            Ok(ops) => Ok(Walk {
                ops,
                range: None,
                place: 1,
            }),
            Err(_) => Err(ScenarioErr::NoMemory),
        }
    }

    /// Takes what was found at the next place.
    pub(crate) fn step(&mut self, found: Result<Op, Fault>) -> Result<(), ScenarioErr>
        ensures goes_on { OnOk result ((rest all : List (FoundOrFault AnOp))
            → WalkIsAt self.old (found ∷ rest) all → WalkIsAt self.new rest all) }
        ensures stops { IfErr result (λ e. (rest all : List (FoundOrFault AnOp))
            → WalkIsAt self.old (found ∷ rest) all → IsShapeAt e (first_shape 1 all)) }
    {
        let place = self.place;
        // No input within the limit of its length has so many ops.
        self.place = place.checked_add(1).ok_or(ScenarioErr::NoMemory)?;
        match found {
            Ok(op) => {
                if self.range.is_none() {
                    self.ops.push(op).map_err(|_| ScenarioErr::NoMemory)?;
                }
            }
            Err(Fault::Shape) => return Err(ScenarioErr::Shape(place)),
            Err(Fault::Range) => self.range = self.range.or(Some(place)),
        }
        Ok(())
    }
}
