//! How many timers have which status.
use crate::world::World;
use ert_timers::Tally;

/// How many of the timers that were ever started have which status.
#[derive(Clone, Copy, Debug, PartialEq, Eq)]
pub struct Counts {
    pub armed: u64,
    /// Those that wait to be handed over.
    pub expired: u64,
    /// Those whose message was put into a mailbox.
    pub delivered: u64,
    /// Those whose message was thrown away, since their process had exited.
    pub dropped: u64,
    pub cancelled: u64,
    /// Those that were cancelled since their process had exited.
    pub orphaned: u64,
}

impl World {
    ghost use Rattle.std.specs.Prelude.{◌≡◌, length};
    ghost use Rattle.ert_defs.specs.{Legal.Legal, States.state, declared.timer.Status.TheVariants.Armed};
    ghost use Rattle.ert_laws.specs.Counts.{counts_of, count_in, entries_of, is_arm, is_expire, is_orphan, deliveries, total};
    ghost use Rattle.ert_world.specs.{Counted.numbers_of, Worlds.world_sched};

    /// Counts the timers by their status, of a world that gave out no seat. No entry is made.
    pub fn counts(&self) -> Counts
        requires { self.now.next ≡ 1 }
        ensures { numbers_of result ≡ counts_of self.now.settings (state self.now.settings self.now.history) }
    {
        let wheels = self.tally();
        let expired = self.waiting();
        let delivered = self.delivered();
        Counts {
            armed: wheels.rows,
            expired,
            delivered,
            dropped: wheels.expires - expired - delivered,
            cancelled: wheels.arms - wheels.rows - wheels.expires - wheels.orphans,
            orphaned: wheels.orphans,
        }
    }

    /// The tallies of all wheels together.
    fn tally(&self) -> Tally
        requires { self.now.next ≡ 1 }
        ensures legal { Legal self.now.settings self.now.history }
        ensures arms { result.arms ≡ total (λ w. entries_of is_arm w self.now.history) self.now.settings.schedulers }
        ensures expires { result.expires ≡ total (λ w. entries_of is_expire w self.now.history) self.now.settings.schedulers }
        ensures orphans { result.orphans ≡ total (λ w. entries_of is_orphan w self.now.history) self.now.settings.schedulers }
        ensures rows { result.rows ≡ count_in (state self.now.settings self.now.history) Armed self.now.settings.schedulers }
    {
        let mut all = Tally {
            arms: 0,
            expires: 0,
            orphans: 0,
            rows: 0,
        };
        for wheel in 0..self.desk.settings().schedulers {
            let one = self.wheels[wheel as usize].tally();
            all.arms += one.arms;
            all.expires += one.expires;
            all.orphans += one.orphans;
            all.rows += one.rows;
        }
        all
    }

    /// How many expired timers wait at all schedulers.
    fn waiting(&self) -> u64
        ensures { result ≡ total (λ w. length (world_sched self.now w).expired) self.now.settings.schedulers }
    {
        let mut all = 0;
        for sched in 0..self.desk.settings().schedulers {
            all += self.scheds[sched as usize].expired.len() as u64;
        }
        all
    }

    /// How many messages of timers were put into all mailboxes.
    fn delivered(&self) -> u64
        ensures { result ≡ total (λ p. deliveries p self.now.history) self.now.settings.processes }
    {
        let mut all = 0;
        for process in 0..self.desk.settings().processes {
            all += self.mails[process as usize].delivered();
        }
        all
    }
}
