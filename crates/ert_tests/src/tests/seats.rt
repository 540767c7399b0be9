//! What one has to know of a service and its seats, looked up.
ghost use Rattle.std.specs.Prelude.{◌<◌};
ghost use Rattle.ert_service.specs.Joining.{AreNumbered};

use ert_locks::{CallerSeat, DeskName, SchedSeat};
use ert_service::Service;
use std::process::Abort;

pub(crate) fn is_process<L: DeskName>(rt: &impl Abort, service: &Service<L>, process: u32)
    ensures { process < L.settings.processes }
{
    assert!(rt; process < service.settings().processes);
}

/// The seats are those of all callers, in order of number.
pub(crate) fn are_callers<L: DeskName>(
    rt: &impl Abort,
    service: &Service<L>,
    seats: &Vec<CallerSeat<L>>,
)
    ensures { AreNumbered (λ s. s.number) L.settings.callers seats.now.items }
{
    assert!(rt; seats.len() == service.settings().callers as usize);
    for (at, seat) in seats.iter().enumerate() {
        assert!(rt; seat.number as usize == at);
    }
}

/// The seats are those of all schedulers, in order of number.
pub(crate) fn are_scheds<L: DeskName>(
    rt: &impl Abort,
    service: &Service<L>,
    seats: &Vec<SchedSeat<L>>,
)
    ensures { AreNumbered (λ s. s.part.wheel) L.settings.schedulers seats.now.items }
{
    assert!(rt; seats.len() == service.settings().schedulers as usize);
    for (at, seat) in seats.iter().enumerate() {
        assert!(rt; seat.part.wheel as usize == at);
    }
}
