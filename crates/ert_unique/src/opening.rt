//! How unique integers are opened and closed.
ghost use Rattle.std.specs.Prelude.{◌≡◌, ◌≤◌, ◌-◌, [], length, vec_len, map, All, IfOk};
ghost use Rattle.ert_unique.specs.{Numbers.{AllDiffer, IsOneTo, IsRearranged}, Passes.{passes_of, number_of, BelongsToUniques, IsNew, AreAll, below, draws_together}, Views.first_share};

use crate::plays::{Opens, Unites};
use crate::uniques::{UniquePass, Uniques};
use crate::view::View;
use atomic_table::{Seat, Table};
use ert_defs::NoMemory;
use std::alloc::{AllocError, Global};

impl Uniques {
    /// Opens unique integers for so many passes, 1 to 1,024. The passes have the numbers from 0 on, and
    /// have drawn, seen and answered nothing.
    pub fn open(alloc: Global, passes: u32) -> Result<(Uniques, Vec<UniquePass>), NoMemory>
        requires in_range { (1 ≤ passes) × (passes ≤ 1024) }
        ensures opened { IfOk result (λ r. passes_of r.0 ≡ passes) }
        ensures all { IfOk result (λ r. AreAll r.0 r.1.items) }
        ensures new { IfOk result (λ r. All IsNew r.1.items) }
        ensures numbers { IfOk result (λ r. map number_of r.1.items ≡ below passes) }
        ensures apart { IfOk result (λ r. AllDiffer (map number_of r.1.items)) }
    {
        let (table, seat) = Table::of_words(alloc, &[0], &passes)?;
        let uniques = Uniques { table };
        let passes = uniques.deal(alloc, seat, passes)?;
        Ok((uniques, passes))
    }

    /// Makes the passes, each with one share of the seat.
    fn deal(
        &self,
        alloc: Global,
        mut seat: Seat<(), View>,
        count: u32,
    ) -> Result<Vec<UniquePass>, AllocError>
        requires count { count ≡ passes_of self.now }
        requires table { seat.table_id ≡ self.now.table.shared.table_id }
        requires first { seat.me ≡ (first_share count, []) }
        ensures all { IfOk result (λ passes. AreAll self.now passes.items) }
        ensures new { IfOk result (λ passes. All IsNew passes.items) }
        ensures numbers { IfOk result (λ passes. map number_of passes.items ≡ below count) }
    {
        let mut passes = Vec::with_capacity(alloc, count as usize)?;
        for number in 0..count {
            passes.push(UniquePass {
                seat: self.table.shared.split_seat::<Opens>(&mut seat),
                number,
                drawn: 0,
                plains: 0,
            })?;
        }
        Ok(passes)
    }

    /// Closes unique integers with all their passes, and gives how many monotonic numbers were drawn:
    /// the passes drew the numbers from 1 to that, each once and none left out.
    pub fn close(self, passes: Vec<UniquePass>) -> u64
        requires all { AreAll self passes.items }
        ensures { IsOneTo result (draws_together passes.items) }
    {
        let seat = self.gather(passes);
        let Uniques { table } = self;
        let closed = table.close_with(seat);
        let greatest = closed.word(0);
        closed.free();
        greatest
    }

    /// Puts all passes together: the seat has all shares, and the draws of all.
    fn gather(&self, mut passes: Vec<UniquePass>) -> Seat<(), View>
        requires all { AreAll self.now passes.items }
        ensures table { result.table_id ≡ self.now.table.shared.table_id }
        ensures bare { result.me.1 ≡ [] }
        ensures share { result.me.0.share ≡ passes_of self.now }
        ensures draws { IsRearranged (draws_together passes.items) result.me.0.draws }
    {
        let Some(first) = passes.pop() else {
            unreachable!()
        };
        let UniquePass { mut seat, .. } = first;
        while let Some(pass) = passes.pop() {
            let UniquePass { seat: other, .. } = pass;
            self.table.shared.join_seat::<Unites>(&mut seat, other);
        }
        seat
    }
}
