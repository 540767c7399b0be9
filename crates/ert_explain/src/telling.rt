//! An explanation, written to a sink.
ghost use Rattle.std.specs.Prelude.{◌≡◌, ◌≤◌, IfOk, None, string_bytes};
ghost use Rattle.ert_explain.specs.Telling.{IsMessageOn, TellsWhyOrNothing};
ghost use Rattle.ert_io.specs.Told.{sink_told};
ghost use Rattle.ert_scenario.specs.Scenarios.{HasRefusal};

use crate::explanation::explanation_of;
use crate::message::write_message;
use ert_defs::NoMemory;
use ert_io::{Sink, write_all};
use ert_scenario::ScenarioErr;
use std::alloc::Global;

/// Writes the message that explains a refusal of bytes, of a scenario with a race where one is wanted, as far as there
/// is memory and the sink takes it. The sink tells no room.
pub fn explain<E: Sink>(
    alloc: Global,
    bytes: &[u8],
    race: bool,
    refusal: &ScenarioErr,
    errors: &mut E,
)
    requires room { E.room errors.old ≡ None }
    requires why { HasRefusal race bytes.now refusal.now }
    ensures told { TellsWhyOrNothing race bytes.now refusal.now (sink_told (E.taken errors.old) (E.room errors.old)) (sink_told (E.taken errors.new) (E.room errors.new)) }
    ensures later { E.faults errors.old ≤ E.faults errors.new }
{
    let Ok(message) = message_on(alloc, bytes, race, refusal) else {
        return;
    };
    let _ = write_all(errors, message.as_bytes());
}

/// The message that explains a refusal of bytes, of a scenario with a race where one is wanted: one line with its
/// newline. It fails only when memory runs out.
pub fn message_on(
    alloc: Global,
    bytes: &[u8],
    race: bool,
    refusal: &ScenarioErr,
) -> Result<String, NoMemory>
    requires { HasRefusal race bytes.now refusal.now }
    ensures { IfOk result (λ text. IsMessageOn race bytes.now refusal.now (string_bytes text)) }
{
    let explanation = explanation_of(alloc, bytes, race, refusal)?;
    let mut page = String::new(alloc);
    write_message(&mut page, bytes, &explanation)?;
    Ok(page)
}
