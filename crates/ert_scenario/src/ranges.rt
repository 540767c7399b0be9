//! The ranges of the arguments of ops.

ghost use Rattle.std.specs.Prelude.{◌≡◌};
ghost use Rattle.ert_scenario.specs.Ranges.{is_reading, is_label, is_sched, is_process, is_started, is_op};

use ert_defs::{Reading, Settings};
use ert_ops::Op;

/// The greatest label.
const MAX_LABEL: u32 = 999_999;

/// Whether the arguments of an op are in range, where a service was opened with the settings.
#[tactic(auto, unfolding(crate::specs::Ranges::is_op))]
pub(crate) fn is_op(settings: &Settings, op: Op) -> bool
    ensures { result ≡ is_op settings.now op }
{
    match op {
        Op::Tick { mono, sys } => is_reading(Reading { mono, sys }),
        Op::Check { mono, sys } => is_reading(Reading { mono, sys }),
        Op::Finalize { mono, sys } => is_reading(Reading { mono, sys }),
        Op::Time | Op::System | Op::Offset | Op::Info | Op::Convert { .. } => true,
        Op::Start {
            label,
            wheel,
            dest,
            ..
        } => is_started(settings, label, wheel, dest),
        Op::SendAfter {
            label,
            wheel,
            dest,
            ..
        } => is_started(settings, label, wheel, dest),
        Op::Cancel { label } => is_label(label),
        Op::CancelQuiet { label } => is_label(label),
        Op::Read { label } => is_label(label),
        Op::CancelAsync { label, process, .. } => is_label(label) && is_process(settings, process),
        Op::ReadAsync { label, process, .. } => is_label(label) && is_process(settings, process),
        Op::Serve { sched } => is_sched(settings, sched),
        Op::Advance { sched } => is_sched(settings, sched),
        Op::Deliver { sched } => is_sched(settings, sched),
        Op::Turn { sched } => is_sched(settings, sched),
        Op::Notify { process } => is_process(settings, process),
        Op::Receive { process } => is_process(settings, process),
        Op::Exit { process } => is_process(settings, process),
        Op::Alive { process } => is_process(settings, process),
        Op::Monitor { process } => is_process(settings, process),
        Op::Demonitor { process, .. } => is_process(settings, process),
    }
}

/// Whether a start has a label, a scheduler and a process.
fn is_started(settings: &Settings, label: u32, wheel: u32, dest: u32) -> bool
    ensures { result ≡ is_started settings.now label wheel dest }
{
    is_label(label) && is_sched(settings, wheel) && is_process(settings, dest)
}

/// Whether a reading is valid.
#[tactic(auto, unfolding(crate::specs::Ranges::is_reading))]
fn is_reading(reading: Reading) -> bool
    ensures { result ≡ is_reading reading }
{
    reading.is_valid()
}

/// Whether it is a label.
fn is_label(label: u32) -> bool
    ensures { result ≡ is_label label }
{
    label <= MAX_LABEL
}

/// Whether it is a scheduler of the service.
fn is_sched(settings: &Settings, sched: u32) -> bool
    ensures { result ≡ is_sched settings.now sched }
{
    sched < settings.schedulers
}

/// Whether it is a process of the service.
fn is_process(settings: &Settings, process: u32) -> bool
    ensures { result ≡ is_process settings.now process }
{
    process < settings.processes
}
