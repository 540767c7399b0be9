//! Shards that come back in any order.
use crate::hub::Hub;
use crate::shard::Shard;

impl Hub {
    ghost use Rattle.std.specs.Prelude.{◌≡◌, ◌<◌, All, length, IfSome, None, slice_index_or};
    ghost use Rattle.ert_shard.specs.{Hubs.{IsLastOut, AreOurs, TakesAll}, Shards.Owned};

    /// Takes shards back, in whatever order they stand: each as soon as it is the next (`is_next`). What is left of them
    /// waits for a shard that is still out. It takes no memory.
    pub fn join_all(&mut self, shards: &mut Vec<Shard>)
        requires { AreOurs self.old shards.old.items }
        ensures { TakesAll self.old shards.old.items self.new shards.new.items }
    {
        while let Some(place) = self.next_of(shards) {
            let shard = shards.remove(place);
            self.join(shard);
        }
    }

    /// The place of the shard that is the next to come back, if it is among these.
    fn next_of(&self, shards: &[Shard]) -> Option<usize>
        ensures some { IfSome result (λ place. (place < length shards.now) × ((d : Owned) → IsLastOut self.now (slice_index_or shards.now place d))) }
        ensures none { result ≡ None → All (λ o. IsLastOut self.now o → ⊥) shards.now }
    {
        for place in 0..shards.len() {
            if self.is_next(&shards[place]) {
                return Some(place);
            }
        }
        None
    }
}
