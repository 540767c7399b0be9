//! What is so of every hub and of every shard, whatever was called before, through whatever handles, on whatever threads.
//! Nothing is computed.
use crate::hub::Hub;
use crate::shard::Shard;

impl Hub {
    ghost use Rattle.ert_laws.specs.KeptLaws.{KeepsLaws};

    /// What the hub knows is one legal history. In it each timer settles at most once, whoever cancels it, none expires
    /// early, monotonic time never falls, and mailboxes keep their order.
    pub fn keeps_laws(&self)
        ensures { KeepsLaws self.now.settings self.now.history }
    {
        let _desk = &self.desk;
    }
}

impl Shard {
    ghost use Rattle.ert_defs.specs.{Actors.of, Legal.Legal, declared.entry.Actor.TheVariants.Wheel};
    ghost use Rattle.ert_laws.specs.KeptLaws.{KeepsLaws};
    ghost use Rattle.ert_shard.specs.Shards.{AreHome};

    /// What the shard knows is one legal history, with the same laws, and each timer that its wheel has had is for a
    /// process of the shard.
    pub fn keeps_laws(&self)
        ensures legal { Legal self.now.settings self.now.history }
        ensures laws { KeepsLaws self.now.settings self.now.history }
        ensures home { AreHome self.now.share (of self.now.history (Wheel self.now.share.number)) }
    {
        let _desk = &self.desk;
    }
}
