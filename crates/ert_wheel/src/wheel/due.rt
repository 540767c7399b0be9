//! The rows that are due, in order.
use super::Wheel;
use crate::keyed::Keyed;
use crate::levels::collect_level;
use crate::row::HeldRow;
use crate::sorting::sort_told;

impl<T: Keyed> Wheel<T> {
    ghost use Rattle.std.specs.Prelude.{◌≡◌, ◌<◌, ◌≤◌, ℕ, All, length, vec_capacity};
    ghost use Rattle.std.specs.List.Sorted.{IsSortedBy};
    ghost use Rattle.ert_wheel.specs.Rows.{key_in, key_of, rows_told, times, due_count, comes_before};

    /// Writes the rows with a deadline at most `to`, in order of deadline, then of order, into `out`,
    /// which is cleared first and has room for one row of each slot.
    pub fn due(&self, to: u64, out: &mut Vec<HeldRow>)
        requires { length self.now.keys ≤ vec_capacity out.old }
        ensures each { (slot : ℕ) → times slot (rows_told self.now.keys out.new.items) ≡ due_count to (key_in self.now.keys slot) }
        ensures rows { All (λ row. key_in self.now.keys row.slot ≡ Some (key_of row)) (rows_told self.now.keys out.new.items) }
        ensures written { All (λ row. row.slot < self.now.owners.written) out.new.items }
        ensures sorted { IsSortedBy comes_before (rows_told self.now.keys out.new.items) }
        ensures capacity { vec_capacity out.new ≡ vec_capacity out.old }
    {
        out.clear();
        // All that are due stand on the lowest level, where that is in the next time's window of 512 milliseconds.
        let mut level = if to >> 9 <= self.next_time >> 9 { 1 } else { 5 };
        while level > 0 {
            level -= 1;
            collect_level(&self.buckets, &self.kept, level, self.next_time, to, out);
        }
        sort_told(&self.kept, out);
    }
}
