//! The line of a refusal.
ghost use Rattle.std.specs.Prelude.{◌≡◌, ◌≢◌, ◌≤◌, ◌⊎◌, ◌++◌, length, Some, None, OnOk, string_bytes};
ghost use Rattle.ert_io.specs.{Faults.Rose, Known.HasRoomFor, Told.{took, TakesFront}};
ghost use Rattle.ert_scenario.specs.declared.scenario.ScenarioErr.TheVariants.{NoMemory};
ghost use Rattle.ert_program.specs.{Refusals.refusal_line, Streams.told_by_sink};

use crate::ending::{EndStatus, Ended, Refusal};
use ert_io::Sink;
use ert_scenario::ScenarioErr;
use ert_script::write_page;
use std::alloc::{AllocError, Global};
use std::fmt::Write;

/// Writes the line of a refusal, which isn't out of memory. Where that was written, the refusal is returned with the
/// end.
pub(crate) fn refuse<O: Sink>(alloc: Global, refusal: Refusal, output: &mut O) -> Ended
    requires fits { HasRoomFor (O.room output.old) (length (refusal_line refusal.why)) }
    requires other { refusal.why ≢ NoMemory }
    ensures which { (result.status ≡ EndStatus.Refused) ⊎ (result.status ≡ EndStatus.WriteFault) ⊎ (result.status ≡ EndStatus.NoMemory) }
    ensures refused { result.status ≡ EndStatus.Refused
        → told_by_sink O.taken O.room output.new ≡ took (told_by_sink O.taken O.room output.old) (refusal_line refusal.why) }
    ensures returned { result.status ≡ EndStatus.Refused → result.refusal ≡ Some refusal }
    ensures not_returned { result.status ≢ EndStatus.Refused → result.refusal ≡ None }
    ensures write_fault { result.status ≡ EndStatus.WriteFault
        → TakesFront (told_by_sink O.taken O.room output.old) (told_by_sink O.taken O.room output.new) (refusal_line refusal.why) }
    ensures no_memory { result.status ≡ EndStatus.NoMemory → output.new ≡ output.old }
    ensures no_desk { result.desk ≡ None }
    ensures later { O.faults output.old ≤ O.faults output.new }
    ensures cause { result.status ≡ EndStatus.WriteFault → Rose (O.faults output.old) (O.faults output.new) }
{
    let mut page = String::new(alloc);
    if write_refusal(&mut page, &refusal.why).is_err() {
        return Ended::without_desk(EndStatus::NoMemory);
    }
    match write_page(output, &mut page) {
        Ok(()) => Ended {
            status: EndStatus::Refused,
            desk: None,
            refusal: Some(refusal),
        },
        Err(_) => Ended::without_desk(EndStatus::WriteFault),
    }
}

/// Appends the line of a refusal, which isn't out of memory.
fn write_refusal(page: &mut String, refusal: &ScenarioErr) -> Result<(), AllocError>
    requires { refusal.now ≢ NoMemory }
    ensures { OnOk result (string_bytes page.new ≡ string_bytes page.old ++ refusal_line refusal.now) }
{
    match *refusal {
        ScenarioErr::Json => write!(page, "refused json\n"),
        ScenarioErr::Shape(place) => write!(page, "refused shape {place}\n"),
        ScenarioErr::Range(place) => write!(page, "refused range {place}\n"),
        ScenarioErr::Limit(place) => write!(page, "refused limit {place}\n"),
        ScenarioErr::NoMemory => unreachable!(),
    }
}
