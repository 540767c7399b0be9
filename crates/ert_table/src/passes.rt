//! Passes that are divided and put together.
ghost use Rattle.std.specs.Prelude.{◌≡◌, ◌++◌, true, not, filter, [], ◌∷◌};
ghost use Rattle.ert_defs.specs.Legal.{Legal};
ghost use Rattle.ert_table.specs.{Desks.{settings_of, view_of, front_of, actors_of, Belongs}, Held.{is_held, actors_but}, Shares.is_of_share, Views.{HasMet, Joined, both, holding, longer, meeting}};

use crate::desk::{Desk, Pass};
use crate::places::TIME;
use crate::plays::{Chosen, Cuts, Divides, Empties, Glues, Learns, Named, Picked};
use crate::share::Share;
use ert_defs::Actor;
use std::marker::Brand;

impl Pass {
    /// Moves an actor into a new pass, which knows as much.
    pub fn split(&mut self, desk: &Desk, actor: Actor) -> Pass
        requires belongs { Belongs desk.now self.old }
        requires held { is_held (actors_of self.old) actor ≡ true }
        ensures belongs { Belongs desk.now self.new }
        ensures new_belongs { Belongs desk.now result }
        ensures rest { actors_of self.new ≡ actors_but (actors_of self.old) actor }
        ensures actor { actors_of result ≡ actor ∷ [] }
        ensures front { front_of self.new ≡ front_of self.old }
        ensures new_front { front_of result ≡ front_of self.old }
    {
        self.split_as::<Brand>(desk, actor)
    }

    fn split_as<C: Chosen>(&mut self, desk: &Desk, actor: Actor) -> Pass
        requires pick { C.actor ≡ actor }
        requires belongs { Belongs desk.now self.old }
        requires held { is_held (actors_of self.old) actor ≡ true }
        ensures belongs { Belongs desk.now self.new }
        ensures new_belongs { Belongs desk.now result }
        ensures kept { view_of self.new ≡ holding (view_of self.old) (actors_but (actors_of self.old) actor) }
        ensures given { view_of result ≡ holding (view_of self.old) (actor ∷ []) }
    {
        Pass {
            seat: desk.table.shared.split_seat::<Cuts<C>>(&mut self.seat),
        }
    }

    /// Moves the actors of a share that it holds into a new pass, which knows as much: one step, however many they are.
    pub fn split_share(&mut self, desk: &Desk, share: &Share) -> Pass
        requires { Belongs desk.now self.old }
        ensures belongs { Belongs desk.now self.new }
        ensures new_belongs { Belongs desk.now result }
        ensures kept { actors_of self.new ≡ filter (λ a. not (is_of_share (settings_of desk.now) share.now a)) (actors_of self.old) }
        ensures given { actors_of result ≡ filter (is_of_share (settings_of desk.now) share.now) (actors_of self.old) }
        ensures front { front_of self.new ≡ front_of self.old }
        ensures new_front { front_of result ≡ front_of self.old }
    {
        self.split_share_as::<Brand>(desk, share)
    }

    fn split_share_as<C: Picked>(&mut self, desk: &Desk, share: &Share) -> Pass
        requires pick { C.mine ≡ is_of_share (settings_of desk.now) share.now }
        requires belongs { Belongs desk.now self.old }
        ensures belongs { Belongs desk.now self.new }
        ensures new_belongs { Belongs desk.now result }
        ensures kept { view_of self.new ≡ holding (view_of self.old) (filter (λ a. not (C.mine a)) (actors_of self.old)) }
        ensures given { view_of result ≡ holding (view_of self.old) (filter C.mine (actors_of self.old)) }
    {
        let _share = share;
        Pass {
            seat: desk.table.shared.split_seat::<Divides<C>>(&mut self.seat),
        }
    }

    /// Moves all actors into a new pass, which knows as much; this one is left with none.
    pub fn take(&mut self, desk: &Desk) -> Pass
        requires { Belongs desk.now self.old }
        ensures belongs { Belongs desk.now self.new }
        ensures new_belongs { Belongs desk.now result }
        ensures none { actors_of self.new ≡ [] }
        ensures actors { actors_of result ≡ actors_of self.old }
        ensures front { front_of self.new ≡ front_of self.old }
        ensures new_front { front_of result ≡ front_of self.old }
    {
        Pass {
            seat: desk.table.shared.split_seat::<Empties>(&mut self.seat),
        }
    }

    /// Takes in another pass. The new front is the longer of the two, which the other begins.
    pub fn join(&mut self, desk: &Desk, other: Pass)
        requires belongs { Belongs desk.now self.old }
        requires other_belongs { Belongs desk.now other }
        ensures belongs { Belongs desk.now self.new }
        ensures actors { actors_of self.new ≡ actors_of self.old ++ actors_of other }
        ensures front { front_of self.new ≡ longer (front_of self.old) (front_of other) }
        ensures joined { Joined (meeting (view_of self.old) (view_of other)) (front_of self.new) }
        ensures legal { Legal (settings_of desk.now) (front_of self.new) }
    {
        self.join_as::<Brand>(desk, other);
    }

    fn join_as<C: Named>(&mut self, desk: &Desk, other: Pass)
        requires pick { C.settings ≡ settings_of desk.now }
        requires belongs { Belongs desk.now self.old }
        requires other_belongs { Belongs desk.now other }
        ensures belongs { Belongs desk.now self.new }
        ensures both { view_of self.new ≡ both (view_of self.old) (view_of other) }
        ensures met { HasMet (view_of self.new).met (front_of self.new) }
        ensures legal { Legal (settings_of desk.now) (front_of self.new) }
    {
        let Pass { seat } = other;
        desk.table.shared.join_seat::<Glues>(&mut self.seat, seat);
        desk.table.shared.load::<Learns<C>>(&mut self.seat, TIME);
    }
}
