ghost use Rattle.std.specs.Prelude.{◌≡◌, ◌≤◌, ◌<◌, ◌↔◌, ℕ, true, IsNone, IfSome};
ghost use Rattle.ert_defs.specs.{Legal.is_generation, declared.timer.Status.Status, declared.timer.Status.TheVariants.Armed};
ghost use Rattle.ert_table.specs.Ranges.{IsTimer, IsTimerWord, TellsArmed, shown_generation};
ghost use Rattle.ert_defs.specs.Words as words;
ghost use Rattle.ert_table.specs.Ranges as ranges;

use ert_defs::{FIRST_LATER_GENERATION, Status, USES_OF_ROUND, use_of};

/// The place of the deadline: the status is below it.
const DEADLINE: u64 = 1 << 3;

/// The place of the generation: status and deadline are below it.
const GENERATION: u64 = 1 << 46;

/// The status of a timer that is armed in the first round of its slot.
const ARMED: u64 = 1;

/// The status of a timer that is armed in a later round of its slot.
const ARMED_LATER: u64 = 7;

/// The word of a slot that was used: the status of its last timer, the deadline of that in milliseconds
/// after the start, 0 to 2^43 - 1, and which use of its round it is, 1 to 262143.
pub fn timer_word(status: Status, deadline: u64, generation: u64) -> u64
    requires { IsTimer deadline generation }
    ensures { result ≡ words.timer_word status deadline generation }
{
    code_of(status, generation) + DEADLINE * deadline + GENERATION * use_of(generation)
}

/// The word of an armed timer, as `timer_word` tells it: one comparison tells its round.
#[inline]
pub fn armed_word(deadline: u64, generation: u64) -> u64
    requires { IsTimer deadline generation }
    ensures { result ≡ words.timer_word Armed deadline generation }
{
    if generation <= USES_OF_ROUND {
        GENERATION * generation + DEADLINE * deadline + ARMED
    } else {
        DEADLINE * generation + ARMED_LATER
    }
}

/// The status and deadline of a slot's word, and what it shows of the generation: all of it where the timer
/// is armed, and else which use of its round it is. None exactly where the slot was never used.
pub fn timer_of(word: u64) -> Option<(Status, u64, u64)>
    requires { IsTimerWord word }
    ensures idle { IsNone result ↔ (word ≡ 0) }
    ensures unpacks { (status : Status) (deadline generation : ℕ) → IsTimer deadline generation
        → word ≡ words.timer_word status deadline generation
        → result ≡ Some (status, deadline, shown_generation status generation) }
    ensures packs { IfSome result (λ timer. word ≡ words.timer_word timer.0 timer.1 timer.2) }
    ensures in_range { IfSome result (λ timer. IsTimer timer.1 timer.2) }
{
    let code = word % DEADLINE;
    let deadline = word / DEADLINE % (GENERATION / DEADLINE);
    // Most that are looked at are armed in the first round.
    if code == ARMED {
        return Some((Status::Armed, deadline, word / GENERATION));
    }
    let status = status_of(code)?;
    if code == ARMED_LATER {
        return Some((status, deadline, word / DEADLINE));
    }
    Some((status, deadline, word / GENERATION))
}

/// The deadline of a timer of this generation, in milliseconds after the start, where the word is that of the timer and
/// it is armed; else None.
///
/// It compares the word as a whole, which takes less than `timer_of`.
#[inline(always)]
pub fn armed_deadline(word: u64, generation: u64) -> Option<u64>
    requires { is_generation generation ≡ true }
    ensures { TellsArmed word generation result }
{
    if generation <= USES_OF_ROUND {
        deadline_of_first(word, generation)
    } else {
        deadline_of_later(word, generation)
    }
}

/// The same in the first round: without status and generation the word has nothing but the deadline.
#[inline(always)]
fn deadline_of_first(word: u64, generation: u64) -> Option<u64>
    requires low { 1 ≤ generation }
    requires high { generation ≤ 262143 }
    ensures { TellsArmed word generation result }
{
    let rest = word.wrapping_sub(GENERATION * generation + ARMED);
    if rest % DEADLINE == 0 && rest < GENERATION {
        Some(rest / DEADLINE)
    } else {
        None
    }
}

/// The same in a later round: the generation, which tells the deadline, stands whole behind the status.
#[inline]
fn deadline_of_later(word: u64, generation: u64) -> Option<u64>
    requires low { 8796093022208 ≤ generation }
    requires high { generation < 2305843009213693952 }
    ensures { TellsArmed word generation result }
{
    if word == DEADLINE * generation + ARMED_LATER {
        Some(generation % FIRST_LATER_GENERATION)
    } else {
        None
    }
}

/// The deadline in the word of an armed timer, in milliseconds after the start; 0 in that of a slot that was never used.
#[inline(always)]
pub fn word_deadline(word: u64) -> u64
    ensures { result ≡ ranges.word_deadline word }
{
    word / DEADLINE % (GENERATION / DEADLINE)
}

/// The generation in the word of an armed timer; 0 in that of a slot that was never used.
#[inline(always)]
pub fn word_generation(word: u64) -> u64
    ensures { result ≡ ranges.word_generation word }
{
    if word % DEADLINE == ARMED_LATER {
        word / DEADLINE
    } else {
        word / GENERATION
    }
}

/// The word of a timer that gets another status, by its word before.
#[inline(always)]
pub fn word_after(word: u64, status: Status, generation: u64) -> u64
    ensures { (before : Status) (deadline : ℕ) → IsTimer deadline generation
        → word ≡ words.timer_word before deadline generation → result ≡ words.timer_word status deadline generation }
{
    word - word % DEADLINE + code_of(status, generation)
}

fn code_of(status: Status, generation: u64) -> u64
    ensures code { result ≡ words.status_code status generation }
    ensures few { result ≤ 7 }
{
    match status {
        Status::Armed if generation < FIRST_LATER_GENERATION => ARMED,
        Status::Armed => ARMED_LATER,
        Status::Expired => 2,
        Status::Delivered => 3,
        Status::Cancelled => 4,
        Status::Orphaned => 5,
        Status::Dropped => 6,
    }
}

fn status_of(code: u64) -> Option<Status>
    ensures known { (status : Status) (generation : ℕ) → code ≡ words.status_code status generation → result ≡ Some status }
    ensures unknown { code ≡ 0 → IsNone result }
{
    match code {
        ARMED | ARMED_LATER => Some(Status::Armed),
        2 => Some(Status::Expired),
        3 => Some(Status::Delivered),
        4 => Some(Status::Cancelled),
        5 => Some(Status::Orphaned),
        6 => Some(Status::Dropped),
        _ => None,
    }
}
