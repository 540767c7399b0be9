ghost use Rattle.std.specs.Prelude.{◌≡◌, ◌+◌, ◌/◌, ◌^◌, ◌<◌, ◌≤◌, ℕ, bit_or};
ghost use Rattle.std.specs.Int.{bit_at};

use crate::row::BUCKETS;
use std::marker::Model;

/// A mark for each bucket, in words of 64 bits.
#[derive(Drop)]
pub struct Marks {
    words: [u64; 67],
    // A bit for each of the first 64 words, which tells whether it has a mark. The others are those of the highest level.
    used: u64,
}

impl Model for Marks {
    ghost use Rattle.std.specs.Prelude.{ℕ, List};
    ghost use Rattle.ert_wheel.specs.Marks.{AreSummed};

    ghost Value = { List ℕ };

    ghost view = { λ m. m.words };

    ghost invariant = { λ m. AreSummed m.words m.used };
}

impl Marks {
    ghost use Rattle.std.specs.Prelude.{◌≡◌, ◌≢◌, ◌<◌, ◌≤◌, ℕ, slice_index_or, slice_set};
    ghost use Rattle.ert_wheel.specs.{Marks.mark_of, declared.row.TheConstants.BUCKETS};

    /// No bucket is marked.
    pub fn new() -> Marks
        ensures { (bucket : ℕ) → bucket < BUCKETS → mark_of result bucket ≡ 0 }
    {
        Marks {
            words: [0; 67],
            used: 0,
        }
    }

    /// Marks a bucket.
    #[inline]
    pub fn set(&mut self, bucket: u32)
        requires { bucket < BUCKETS }
        ensures here { mark_of self.new bucket ≡ 1 }
        ensures others { (other : ℕ) → other ≢ bucket → mark_of self.new other ≡ mark_of self.old other }
    {
        let at = bucket / 64;
        let was = self.words[at as usize];
        self.words[at as usize] = was | 1 << (bucket % 64);
        // Few words have no mark, so this is rarely taken, whichever buckets have one.
        if was == 0 {
            note(&mut self.used, at);
        }
    }

    /// Takes the mark of a bucket away.
    #[inline]
    pub fn clear(&mut self, bucket: u32)
        requires { bucket < BUCKETS }
        ensures here { mark_of self.new bucket ≡ 0 }
        ensures others { (other : ℕ) → other ≢ bucket → mark_of self.new other ≡ mark_of self.old other }
    {
        let at = bucket / 64;
        let word = self.words[at as usize] & !(1 << (bucket % 64));
        self.store(at, word);
    }

    /// The first marked bucket from one on and before an end; the end where there is none.
    #[inline]
    pub fn first(&self, from: u32, end: u32) -> u32
        requires from { from ≤ end }
        requires end { end ≤ BUCKETS }
        ensures up { from ≤ result }
        ensures low { result ≤ end }
        ensures below { (bucket : ℕ) → from ≤ bucket → bucket < result → mark_of self.now bucket ≡ 0 }
        ensures here { result < end → mark_of self.now result ≡ 1 }
    {
        if from == end {
            return end;
        }
        let at = from / 64;
        let bit = first_bit(self.words[at as usize], from % 64);
        if bit < 64 {
            return (at * 64 + bit).min(end);
        }
        let at = self.next_used(at + 1);
        if at == 67 {
            return end;
        }
        (at * 64 + first_bit(self.words[at as usize], 0)).min(end)
    }

    /// The first word from one on that has a mark; 67 where there is none.
    #[inline]
    fn next_used(&self, from: u32) -> u32
        requires { from ≤ 67 }
        ensures up { from ≤ result }
        ensures low { result ≤ 67 }
        ensures below { (at : ℕ) → from ≤ at → at < result → slice_index_or self.now at 0 ≡ 0 }
        ensures here { result < 67 → slice_index_or self.now result 0 ≢ 0 }
    {
        if from < 64 {
            let at = first_bit(self.used, from);
            if at < 64 {
                return at;
            }
        }
        let mut at = from.max(64);
        while at < 67 && self.words[at as usize] == 0 {
            at += 1;
        }
        at
    }

    /// Stores a word, and tells of it whether it has a mark.
    #[inline]
    fn store(&mut self, at: u32, word: u64)
        requires { at < 67 }
        ensures { self.new ≡ slice_set self.old at word }
    {
        self.words[at as usize] = word;
        if at < 64 {
            if word == 0 {
                self.used &= !(1 << at);
            } else {
                self.used |= 1 << at;
            }
        }
    }
}

/// Notes that a word has a mark, where it is one of the first 64.
#[inline]
fn note(used: &mut u64, at: u32)
    ensures near { at < 64 → used.new ≡ bit_or used.old (2 ^ at) }
    ensures far { 64 ≤ at → used.new ≡ used.old }
{
    if at < 64 {
        *used |= 1 << at;
    }
}

/// The place of the lowest 1 from one place on; 64 where there is none.
#[inline]
fn first_bit(word: u64, from: u32) -> u32
    requires { from < 64 }
    ensures up { from ≤ result }
    ensures low { result ≤ 64 }
    ensures below { (place : ℕ) → from ≤ place → place < result → bit_at word place ≡ 0 }
    ensures here { result < 64 → bit_at word result ≡ 1 }
    ensures none { result ≡ 64 → word / 2 ^ from ≡ 0 }
{
    let left = word >> from;
    if left == 0 {
        return 64;
    }
    from + left.trailing_zeros()
}
