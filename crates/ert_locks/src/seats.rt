//! What a thread holds: the seat of a caller or of a scheduler.
ghost use Rattle.std.specs.Prelude.{◌≡◌, ◌<◌};
ghost use Rattle.ert_defs.specs.declared.entry.Actor.TheVariants.{Caller};
ghost use Rattle.ert_locks.specs.{Kinds.{PartFits, scheds}, Names.IsPassFor};

use crate::names::DeskName;
use ert_table::Pass;
use ert_timers::SchedPart;
use std::marker::PhantomData;

/// The seat of a caller on the desk that `L` names: the pass with that one actor.
#[derive(Drop)]
pub struct CallerSeat<L: DeskName> {
    /// The number of the caller, below the desk's number of callers.
    pub number: u32,
    pub pass: Pass,
    pub of: PhantomData<L>,
    pub ghost sits: { IsPassFor L.table L.settings (Caller number) pass },
    pub ghost below: { number < L.settings.callers },
}

/// The seat of a scheduler on the desk that `L` names: its part, which stands for the front of the pass with
/// that one actor.
#[derive(Drop)]
pub struct SchedSeat<L: DeskName> {
    pub part: SchedPart,
    pub pass: Pass,
    pub of: PhantomData<L>,
    pub ghost fits: { PartFits L.table L.settings scheds part pass },
}

impl<L: DeskName> CallerSeat<L> {
    /// The seat of the caller with this number, which the pass has alone.
    pub fn new(number: u32, pass: Pass) -> CallerSeat<L>
        requires sits { IsPassFor L.table L.settings (Caller number) pass }
        requires below { number < L.settings.callers }
        ensures number { result.number ≡ number }
        ensures pass { result.pass ≡ pass }
    {
        CallerSeat {
            number,
            pass,
            of: PhantomData,
        }
    }
}

impl<L: DeskName> SchedSeat<L> {
    /// The seat of the scheduler with this part, which stands for the front of the pass.
    pub fn new(part: SchedPart, pass: Pass) -> SchedSeat<L>
        requires fits { PartFits L.table L.settings scheds part pass }
        ensures part { result.part ≡ part }
        ensures pass { result.pass ≡ pass }
    {
        SchedSeat {
            part,
            pass,
            of: PhantomData,
        }
    }
}
