//! A world taken apart, and put together.
ghost use Rattle.std.specs.Prelude.{◌≡◌, ℕ, [], slice_index_or};
ghost use Rattle.ert_defs.specs.declared.entry.Actor.TheVariants.{Wheel};
ghost use Rattle.ert_table.specs.{Desks.{settings_of, view_of, front_of, actors_of, Belongs}, Held.IsWhole};
ghost use Rattle.ert_timers.specs.{Parts.{Part, PartStands}, Passed.LosesRows};
ghost use Rattle.ert_world.specs.{Parts.AreOrdered, Worlds.AreTidy};

use crate::world::{CALLER, World};
use ert_defs::Settings;
use ert_mail::{InboxPart, MailPart};
use ert_table::{Desk, KeeperPart, Pass};
use ert_timers::{SchedPart, WheelPart};
use std::sync::Arc;

/// All that a world has which gave out no seat, each list in order of number.
#[derive(Drop)]
pub struct Parts {
    pub settings: Settings,
    pub desk: Arc<Desk>,
    pub pass: Pass,
    pub keeper: KeeperPart,
    pub wheels: Vec<WheelPart>,
    pub inboxes: Vec<InboxPart>,
    pub mails: Vec<MailPart>,
    pub scheds: Vec<SchedPart>,
}

impl World {
    ghost use Rattle.std.specs.Arc.{arc_value};
    ghost use Rattle.std.specs.Prelude.{None};
    ghost use Rattle.ert_table.specs.Desks.{settings_of};
    ghost use Rattle.ert_world.specs.{Parts.parts_of, Worlds.{seen, AreFit, IsPutTogether}};

    /// Takes a world apart that gave out no seat. No entry is made, and no memory is taken.
    pub fn into_parts(self) -> Parts
        requires { self.next ≡ 1 }
        ensures settings { result.settings ≡ settings_of (arc_value result.desk) }
        ensures fit { AreFit (arc_value result.desk) result.pass 1 (parts_of result.keeper result.wheels.items result.inboxes.items result.mails.items result.scheds.items) }
        ensures same { self ≡ seen (arc_value result.desk) result.pass 1 result.keeper result.wheels.items self.turns }
        ensures tidy { AreTidy (settings_of (arc_value result.desk)) (front_of result.pass) result.wheels.items }
    {
        Parts {
            settings: *self.desk.settings(),
            desk: self.desk,
            pass: self.pass,
            keeper: self.keeper,
            wheels: self.wheels,
            inboxes: self.inboxes,
            mails: self.mails,
            scheds: self.scheds,
        }
    }

    /// Puts parts together that fit: the pass belongs to the desk and holds every actor, the lists have the
    /// counts of the settings and are in order of number, and each part stands for the pass's front. No seat is
    /// given out.
    ///
    /// It looks at the word of each timer that a wheel holds, once, and drops the rows of those that others cancelled. No
    /// entry is made, and no memory is taken.
    pub fn from_parts(parts: Parts) -> World
        requires settings { parts.settings ≡ settings_of (arc_value parts.desk) }
        requires fit { AreFit (arc_value parts.desk) parts.pass 1 (parts_of parts.keeper parts.wheels.items parts.inboxes.items parts.mails.items parts.scheds.items) }
        ensures { IsPutTogether (seen (arc_value parts.desk) parts.pass 1 parts.keeper parts.wheels.items None) result }
    {
        let Parts {
            desk,
            mut pass,
            keeper,
            mut wheels,
            inboxes,
            mails,
            scheds,
            ..
        } = parts;
        drop_all_settled(&desk, &mut pass, &mut wheels);
        World {
            desk,
            pass,
            keeper,
            wheels,
            inboxes,
            mails,
            scheds,
            list: None,
            next: CALLER + 1,
        }
    }
}

/// Drops the rows of the timers that others have cancelled from each wheel.
fn drop_all_settled(desk: &Desk, pass: &mut Pass, wheels: &mut Vec<WheelPart>)
    requires belongs { Belongs desk.now pass.old }
    requires whole { IsWhole (settings_of desk.now) (actors_of pass.old) }
    requires ordered { AreOrdered (λ p. p.number) (PartStands (settings_of desk.now) (front_of pass.old)) Wheel [] (settings_of desk.now).schedulers wheels.old.items }
    ensures belongs { Belongs desk.now pass.new }
    ensures same { view_of pass.new ≡ view_of pass.old }
    ensures ordered { AreOrdered (λ p. p.number) (PartStands (settings_of desk.now) (front_of pass.old)) Wheel [] (settings_of desk.now).schedulers wheels.new.items }
    ensures rows { (i : ℕ) (d : Part) → LosesRows (slice_index_or wheels.old.items i d) (slice_index_or wheels.new.items i d) }
    ensures tidy { AreTidy (settings_of desk.now) (front_of pass.old) wheels.new.items }
{
    for wheel in 0..desk.settings().schedulers {
        wheels[wheel as usize].drop_settled(desk, pass);
    }
}
