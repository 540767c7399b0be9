ghost use Rattle.std.specs.Prelude.{◌≡◌, IfOk};
ghost use Rattle.std.specs.List.{range_with_len};

use ert_defs::NoMemory;
use std::alloc::{AllocError, Global};
use std::collections::VecDeque;
use std::marker::Model;

/// Numbers that wait for their turn, each once.
///
/// They are below a bound that is fixed when it is made, and stand in a row. Each call takes constant time, and no more
/// memory.
#[derive(Drop)]
pub struct Turns {
    bound: u32,
    waiting: VecDeque<u32>,
}

impl Model for Turns {
    ghost use Rattle.ert_mail.specs.Turns.{AreTurns, TurnRow, row_code};
    ghost use Rattle.std.specs.VecDeque.{deque_capacity};

    ghost Value = { TurnRow };

    ghost coded = { row_code };

    ghost view = { λ t. record { bound = t.bound; held = t.waiting.items } };

    ghost invariant = { λ t. AreTurns (record { bound = t.bound; held = t.waiting.items }) (deque_capacity t.waiting) };
}

impl Turns {
    ghost use Rattle.std.specs.Prelude.{◌≡◌, ◌↔◌, ◌<◌, ◌++◌, ℕ, false, [], ◌∷◌, IfOk, IfSome, IfNone, IsNone, nat_lt};
    ghost use Rattle.ert_mail.specs.Turns.{is_listed};

    /// Holds every number below `bound`, in order.
    pub fn new(alloc: Global, bound: u32) -> Result<Turns, NoMemory>
        ensures bound { IfOk result (λ row. row.bound ≡ bound) }
        ensures order { IfOk result (λ row. row.held ≡ range_with_len 0 bound) }
        ensures every { IfOk result (λ row. (number : ℕ) → is_listed row number ≡ nat_lt number bound) }
    {
        match below(alloc, bound) {
            Ok(held) => Ok(Turns {
                bound,
                waiting: VecDeque::from_vec(held),
            }),
            Err(_) => Err(NoMemory),
        }
    }

    /// Takes the first number out; None exactly where none waits.
    pub fn pick_first(&mut self) -> Option<u32>
        ensures none { IsNone result ↔ (self.old.held ≡ []) }
        ensures unchanged { IfNone result (self.new ≡ self.old) }
        ensures first { IfSome result (λ number. self.old ≡ record self.new { held = number ∷ self.new.held }) }
        ensures away { IfSome result (λ number. is_listed self.new number ≡ false) }
        ensures in_range { IfSome result (λ number. number < self.old.bound) }
    {
        self.waiting.pop_front()
    }

    /// Adds a number that doesn't wait, as the last one.
    pub fn put(&mut self, number: u32)
        requires in_range { number < self.old.bound }
        requires away { is_listed self.old number ≡ false }
        ensures { self.new ≡ record self.old { held = self.old.held ++ number ∷ [] } }
    {
        // There is room for each of the numbers.
        self.waiting.push_back_reserved(number);
    }
}

fn below(alloc: Global, bound: u32) -> Result<Vec<u32>, AllocError>
    ensures { IfOk result (λ held. held.items ≡ range_with_len 0 bound) }
{
    (0..bound).collect(alloc)
}
