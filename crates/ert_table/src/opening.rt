//! How a desk is opened and closed.
ghost use Rattle.std.specs.Prelude.{◌≡◌, ◌*◌, ◌<◌, ℕ, [], slice_index, vec_len, replicate, IfOk};
ghost use Rattle.std.specs.Mem.Slots.{slots_items, slots_len, IsFull};
ghost use Rattle.ert_defs.specs.{Lines.{first_offset, first_state}, Settings.IsChecked, States.state, Words.is_final};
ghost use Rattle.ert_defs.specs.Words as words;
ghost use Rattle.ert_table.specs.{Desks.{settings_of, front_of, actors_of, Belongs}, Held.IsWhole, Openings.first_words, Places.AreWords};
ghost use Rattle.ert_table.specs.Places as places;

use crate::clock_words::offset_word;
use crate::desk::{Desk, Pass, Words};
use crate::places::{
    OFFSET, TIME, first_process, process_place, slot_place, wheel_width, word_count,
};
use atomic_table::{Closed, Table};
use ert_defs::{Mode, NoMemory, Settings};
use std::alloc::{AllocError, Global};

impl Desk {
    /// Opens a service: its history is empty, and the pass holds every actor.
    pub fn open(alloc: Global, settings: &Settings) -> Result<(Desk, Pass), NoMemory>
        requires checked { IsChecked settings.now }
        ensures settings { IfOk result (λ r. settings_of r.0 ≡ settings.now) }
        ensures belongs { IfOk result (λ r. Belongs r.0 r.1) }
        ensures front { IfOk result (λ r. front_of r.1 ≡ []) }
        ensures whole { IfOk result (λ r. IsWhole settings.now (actors_of r.1)) }
    {
        let words = words_of_opening(alloc, settings)?;
        let (table, seat) = Table::of_words(alloc, &words, settings)?;
        let desk = Desk {
            table,
            settings: *settings,
            width: wheel_width(settings),
            first_process: first_process(settings),
        };
        Ok((desk, Pass { seat }))
    }

    /// What the service was opened with.
    pub fn settings(&self) -> &Settings
        ensures { result.now ≡ settings_of self.now }
    {
        &self.settings
    }

    /// Closes the service with the pass that holds every actor. The words are those of the whole history.
    pub fn close(self, alloc: Global, pass: Pass) -> Result<Words, NoMemory>
        requires belongs { Belongs self pass }
        requires whole { IsWhole (settings_of self) (actors_of pass) }
        ensures { IfOk result (λ words. AreWords (settings_of self) (state (settings_of self) (front_of pass)) words) }
    {
        let slots = self.settings.schedulers as usize * self.settings.slots as usize;
        let mut timers = zeros(alloc, slots)?;
        let mut processes = zeros(alloc, self.settings.processes as usize)?;
        let Desk {
            table,
            settings,
            ..
        } = self;
        let Pass { seat } = pass;
        let closed = table.close_with(seat);
        read_timers(&closed, &settings, &mut timers);
        read_processes(&closed, &settings, &mut processes);
        let words = Words {
            time: closed.word(TIME),
            offset: closed.word(OFFSET),
            timers,
            processes,
        };
        closed.free();
        Ok(words)
    }
}

fn words_of_opening(alloc: Global, settings: &Settings) -> Result<Vec<u64>, AllocError>
    requires { IsChecked settings.now }
    ensures { IfOk result (λ words. words.items ≡ first_words settings.now) }
{
    let mut words = zeros(alloc, word_count(settings))?;
    words[OFFSET] = offset_word(
        offset_at_opening(settings),
        is_final_at_opening(settings.mode),
    );
    Ok(words)
}

fn zeros(alloc: Global, count: usize) -> Result<Vec<u64>, AllocError>
    ensures items { IfOk result (λ words. words.items ≡ replicate count 0) }
    ensures length { IfOk result (λ words. vec_len words ≡ count) }
{
    vec![in alloc; 0; count]
}

fn offset_at_opening(settings: &Settings) -> i64
    requires { IsChecked settings.now }
    ensures { result ≡ first_offset settings.now }
{
    settings.first.sys - settings.start
}

fn is_final_at_opening(mode: Mode) -> bool
    ensures { result ≡ is_final (first_state mode) }
{
    matches!(mode, Mode::No)
}

/// Reads the words of the slots, wheel by wheel, without the gaps between them.
fn read_timers(closed: &Closed<(), Global>, settings: &Settings, timers: &mut Vec<u64>)
    requires checked { IsChecked settings.now }
    requires full { IsFull closed.now.words }
    requires counted { slots_len closed.now.words ≡ words.word_count settings.now }
    requires room { vec_len timers.old ≡ settings.now.schedulers * settings.now.slots }
    ensures length { vec_len timers.new ≡ vec_len timers.old }
    ensures timers { (i : ℕ) → i < vec_len timers.old
        → slice_index timers.new.items i ≡ slice_index (slots_items closed.now.words) (places.timer_place settings.now i) }
{
    let slots = settings.slots as usize;
    for i in 0..timers.len() {
        timers[i] = closed.word(slot_place(settings, i / slots, i % slots));
    }
}

/// Reads the words of the processes.
fn read_processes(closed: &Closed<(), Global>, settings: &Settings, processes: &mut Vec<u64>)
    requires checked { IsChecked settings.now }
    requires full { IsFull closed.now.words }
    requires counted { slots_len closed.now.words ≡ words.word_count settings.now }
    requires room { vec_len processes.old ≡ settings.now.processes }
    ensures length { vec_len processes.new ≡ vec_len processes.old }
    ensures processes { (p : ℕ) → p < vec_len processes.old
        → slice_index processes.new.items p ≡ slice_index (slots_items closed.now.words) (places.process_place settings.now p) }
{
    for p in 0..processes.len() {
        processes[p] = closed.word(process_place(settings, p));
    }
}
