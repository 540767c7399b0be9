//! What is stored of a slot, in four words.
ghost use Rattle.std.specs.Prelude.{◌≡◌, ◌<◌, ◌≤◌, cond, true, false};
ghost use Rattle.ert_timers.specs.Slots.{is_bare, is_joined, nothing, stored_slot, stored_key};
ghost use Rattle.ert_table.specs.Ranges.{word_deadline, word_generation};

use ert_defs::Kind;
use ert_table::{word_deadline, word_generation};
use ert_wheel::Keyed;

/// The place of the destination in `rest`: the kind is below it.
const DEST: u64 = 1 << 1;

/// The place of one above the greatest deadline in `rest`: the kind and the destination are below it.
const ABOVE: u64 = 1 << 20;

/// What is stored of a slot: its last timer with the key of that timer's row, and one above the greatest deadline of all its
/// timers.
///
/// Deadline and generation of the timer stand in the word that it had while it was armed, and three small fields are packed into
/// one. So it has 32 bytes.
#[derive(Clone, Copy)]
pub struct Stored {
    /// The word of the timer while it was armed; 0 where the slot was never used.
    word: u64,
    /// Twice the order, how many timers of the wheel were armed before it, and one more where the slot stands in the chain of
    /// its process. A slot that stands there may have no such note; one that doesn't has none.
    rank: u64,
    msg: u64,
    /// The kind, the destination, which is below 2^19, and one above the greatest deadline, which is below 2^44.
    rest: u64,
}

// Two of them are as long as a line of the caches.
const _: () = prove!(size_of::<Stored>() == 32);

impl Keyed for Stored {
    ghost key = { stored_key };

    #[inline(always)]
    fn deadline(self) -> u64 {
        word_deadline(self.word)
    }

    #[inline(always)]
    fn order(self) -> u64 {
        self.rank / 2
    }
}

impl Stored {
    /// A slot whose last timer has this word while it is armed, and this order, destination, message and kind. One above the
    /// greatest deadline of its timers is `above`, in milliseconds after the start time. It is noted as standing in the chain of
    /// its process.
    #[inline(always)]
    pub(crate) fn new(word: u64, order: u64, above: u64, dest: u32, msg: u64, kind: Kind) -> Stored
        requires order { order ≤ 9007199254740992 }
        requires above { above < 17592186044416 }
        requires dest { dest < 524288 }
        ensures slot { stored_slot result ≡ record { generation = word_generation word; above = above; dest = dest; msg = msg; kind = kind } }
        ensures key { stored_key result ≡ record { deadline = word_deadline word; order = order } }
        ensures joined { is_joined result ≡ true }
    {
        Stored {
            word,
            rank: order * 2 + 1,
            msg,
            rest: number_of(kind) + DEST * u64::from(dest) + ABOVE * above,
        }
    }

    /// A slot that was never used.
    pub(crate) fn unused() -> Stored
        ensures { result ≡ nothing }
    {
        Stored {
            word: 0,
            rank: 0,
            msg: 0,
            rest: 0,
        }
    }

    /// The same, without the note that it stands in the chain of its process.
    pub(crate) fn apart(self) -> Stored
        ensures slot { stored_slot result ≡ stored_slot self }
        ensures key { stored_key result ≡ stored_key self }
        ensures apart { is_joined result ≡ false }
    {
        Stored {
            word: self.word,
            rank: self.rank / 2 * 2,
            msg: self.msg,
            rest: self.rest,
        }
    }

    /// Whether it is noted that it stands in the chain of a process.
    #[inline]
    pub(crate) fn is_with(self, process: u32) -> bool
        ensures joined { result ≡ true → is_joined self ≡ true }
        ensures dest { result ≡ true → (stored_slot self).dest ≡ process }
    {
        self.rank % 2 == 1 && self.dest() == process
    }

    /// The generation of its last timer; 0 where it was never used.
    #[inline]
    pub(crate) fn generation(self) -> u64
        ensures { result ≡ (stored_slot self).generation }
    {
        word_generation(self.word)
    }

    /// One above the greatest deadline of all its timers, in milliseconds after the start time, so at most 2^43;
    /// 0 where it was never used.
    #[inline]
    pub(crate) fn above(self) -> u64
        ensures above { result ≡ (stored_slot self).above }
        ensures in_range { result < 17592186044416 }
    {
        self.rest / ABOVE
    }

    /// The destination of its last timer.
    #[inline]
    pub(crate) fn dest(self) -> u32
        ensures { result ≡ (stored_slot self).dest }
    {
        (self.rest % ABOVE / DEST) as u32
    }

    /// The message of its last timer.
    #[inline]
    pub(crate) fn msg(self) -> u64
        ensures { result ≡ (stored_slot self).msg }
    {
        self.msg
    }

    /// The kind of its last timer.
    #[inline]
    pub(crate) fn kind(self) -> Kind
        ensures { result ≡ (stored_slot self).kind }
    {
        if self.rest % DEST == 1 {
            Kind::Bare
        } else {
            Kind::Wrapped
        }
    }
}

/// The number of a kind: 1 where the message goes alone.
#[inline]
fn number_of(kind: Kind) -> u64
    ensures { result ≡ cond (is_bare kind) 1 0 }
{
    match kind {
        Kind::Wrapped => 0,
        Kind::Bare => 1,
    }
}
