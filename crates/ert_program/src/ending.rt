ghost use Rattle.std.specs.Prelude.{◌≡◌};
ghost use Rattle.ert_program.specs.Endings.{code_of, without_desk, end_of};

use ert_scenario::ScenarioErr;
use ert_script::RunErr;
use ert_table::{Desk, Pass};
use std::sync::Arc;

/// How a run of the program ended.
#[derive(Clone, Copy, Debug, PartialEq, Eq)]
pub enum EndStatus {
    /// The whole job was done: a scenario was read to its end and run, all readings were taken, or a made
    /// scenario was run. The transcript or report stands there.
    Done,
    /// The command line is none that the program has; the usage line was written.
    Usage,
    /// The input is no scenario, or the last reading isn't valid; the line of the refusal was written.
    Refused,
    /// The input failed. Nothing was written.
    ReadFault,
    /// The output failed. The first part of what was to be written stands there.
    WriteFault,
    /// The clock failed. The lines of the readings before it were written.
    ClockFault,
    /// Memory ran out. The first part of what was to be written may stand there.
    NoMemory,
    /// The input is longer than 16,777,216 bytes. Nothing was written.
    TooLong,
}

impl EndStatus {
    /// The number that the process ends with.
    pub fn code(self) -> u8
        ensures { result ≡ code_of self }
    {
        match self {
            EndStatus::Done => 0,
            EndStatus::Usage => 2,
            EndStatus::Refused => 3,
            EndStatus::ReadFault => 4,
            EndStatus::WriteFault => 5,
            EndStatus::ClockFault => 6,
            EndStatus::NoMemory => 7,
            EndStatus::TooLong => 8,
        }
    }
}

/// Why `run` or `race` refused its input.
#[derive(Drop)]
pub struct Refusal {
    /// Whether a scenario with a race was wanted.
    pub race: bool,
    /// The whole input.
    pub bytes: Vec<u8>,
    /// The refusal that these bytes have.
    pub why: ScenarioErr,
}

/// What a run of the program leaves.
#[derive(Drop)]
pub struct Ended {
    pub status: EndStatus,
    /// Why the input was refused: it is there where `run` or `race` ends as Refused, and only there.
    pub refusal: Option<Refusal>,
    /// A share of the desk that the calls were made on, with the pass that holds every actor of it. It is there at
    /// Done, and only there. `Desk::close` reads its words.
    pub desk: Option<(Arc<Desk>, Pass)>,
}

impl Ended {
    /// The end of a run.
    pub(crate) fn of_run(ran: Result<(Arc<Desk>, Pass), RunErr>) -> Ended
        ensures { result ≡ end_of ran }
    {
        match ran {
            Ok(desk) => Ended {
                status: EndStatus::Done,
                desk: Some(desk),
                refusal: None,
            },
            Err(RunErr::WriteFault) => Ended::without_desk(EndStatus::WriteFault),
            Err(RunErr::NoMemory) => Ended::without_desk(EndStatus::NoMemory),
        }
    }

    /// An end at which no run is done and no input is refused.
    pub(crate) fn without_desk(status: EndStatus) -> Ended
        ensures { result ≡ without_desk status }
    {
        Ended {
            status,
            desk: None,
            refusal: None,
        }
    }
}
