//! The places of the words in the table.
ghost use Rattle.std.specs.Prelude.{◌≡◌, ◌+◌, ◌<◌};
ghost use Rattle.ert_defs.specs.{Legal.IsSlot, Settings.IsChecked};
ghost use Rattle.ert_defs.specs.Words as words;
ghost use Rattle.ert_table.specs.Places as places;

use crate::desk::Desk;
use ert_defs::Settings;

/// How many unused words stand between two groups of words: with one word of a group they fill a cache
/// line of 64 bytes, so a step on one group never takes the line of another.
const GAP: usize = 7;

/// How many unused words stand in front of the time and behind the processes: a whole line, so the words share none with
/// what others have in memory. Where the heap puts the table is its own choice.
const EDGE: usize = 8;

/// The place of the time.
pub(crate) const TIME: usize = EDGE;

/// The place of the offset.
pub(crate) const OFFSET: usize = TIME + 1 + GAP;

/// The place of the first slot of the first wheel.
const SLOTS: usize = OFFSET + 1 + GAP;

/// The place of the word of a slot, as `Desk::touch` tells it.
#[derive(Clone, Copy, Debug, PartialEq, Eq)]
pub struct SlotPlace {
    pub(crate) place: usize,
}

/// The place of a slot of a wheel.
pub(crate) fn slot_place(settings: &Settings, wheel: usize, slot: usize) -> usize
    requires checked { IsChecked settings.now }
    requires slot { IsSlot settings.now wheel slot }
    ensures { result ≡ places.slot_place settings.now wheel slot }
{
    SLOTS + wheel * wheel_width(settings) + slot
}

/// The place of a process.
pub(crate) fn process_place(settings: &Settings, process: usize) -> usize
    requires checked { IsChecked settings.now }
    requires process { process < settings.now.processes }
    ensures { result ≡ places.process_place settings.now process }
{
    first_process(settings) + process
}

/// The place of the first process.
pub(crate) fn first_process(settings: &Settings) -> usize
    requires { IsChecked settings.now }
    ensures { result ≡ 24 + words.wheels_width settings.now }
{
    SLOTS + wheels_width(settings)
}

/// How many words a desk has.
pub(crate) fn word_count(settings: &Settings) -> usize
    requires { IsChecked settings.now }
    ensures { result ≡ words.word_count settings.now }
{
    first_process(settings) + settings.processes as usize + EDGE
}

/// How many words the wheels take.
fn wheels_width(settings: &Settings) -> usize
    requires { IsChecked settings.now }
    ensures { result ≡ words.wheels_width settings.now }
{
    settings.schedulers as usize * wheel_width(settings)
}

/// How many words a wheel takes: its slots, and the gap behind them.
pub(crate) fn wheel_width(settings: &Settings) -> usize
    requires { IsChecked settings.now }
    ensures { result ≡ words.wheel_width settings.now }
{
    settings.slots as usize + GAP
}

impl Desk {
    ghost use Rattle.std.specs.Prelude.{◌≡◌, ◌<◌};
    ghost use Rattle.ert_defs.specs.Legal.{IsSlot};
    ghost use Rattle.ert_table.specs.Desks.{settings_of};
    ghost use Rattle.ert_table.specs.Places as places;

    /// The place of a slot of a wheel, as `slot_place` tells it of the settings.
    #[inline]
    pub(crate) fn slot_place(&self, wheel: usize, slot: usize) -> usize
        requires { IsSlot (settings_of self.now) wheel slot }
        ensures { result ≡ places.slot_place (settings_of self.now) wheel slot }
    {
        SLOTS + wheel * self.width + slot
    }

    /// The place of a process, as `process_place` tells it of the settings.
    #[inline]
    pub(crate) fn process_place(&self, process: usize) -> usize
        requires { process < (settings_of self.now).processes }
        ensures { result ≡ places.process_place (settings_of self.now) process }
    {
        self.first_process + process
    }
}
