//! `run` from memory into memory that was reserved.
ghost use Rattle.std.specs.Prelude.{Some, IfOk, IfSome};
ghost use Rattle.ert_program.specs.Runs.{InputFits};

use super::{LEAP, LEAP_TEXT};
use ert_io::{MemSink, MemSource, SureSink, SureSource};
use ert_program::{EndStatus, run, run_in_memory};
use ert_scenario::{one_verdict, scenarios_are_accepted};
use std::alloc::{AllocError, Global};
use std::test::Fail;

// How many bytes the transcript of a scenario has, by a run of it; None where the run isn't done.
fn room_for(alloc: Global, text: &[u8]) -> Result<Option<usize>, AllocError>
    ensures { IfOk result (λ found. IfSome found (λ n. InputFits (Some text.now) (Some n))) }
{
    one_verdict();
    scenarios_are_accepted();
    let mut input = MemSource::new(text.to_vec(alloc)?, Vec::new(alloc));
    let mut output = MemSink::new(alloc, 64, Vec::new(alloc));
    let ended = run(alloc, &mut input, &mut output);
    if ended.status != EndStatus::Done {
        return Ok(None);
    }
    Ok(Some(output.bytes().len()))
}

#[test]
fn writes_a_transcript_into_its_room(rt: HostRuntime) -> Result<(), Fail> {
    let alloc = rt.alloc();
    let Some(room) = room_for(alloc, LEAP.as_bytes())? else {
        return Err(Fail::new("the scenario isn't run"));
    };
    let mut input = SureSource::new(LEAP.as_bytes().to_vec(alloc)?);
    let mut output = SureSink::new(alloc);
    output.reserve(room)?;
    let ended = run_in_memory(alloc, &mut input, &mut output);
    let is_right = ended.status == EndStatus::Done && output.bytes() == LEAP_TEXT.as_bytes();
    assert!(rt; room == 98 && is_right, "of {room} bytes");
    Ok(())
}
