//! What a step on the table tells a pass, for entries, actors and settings that a call picks. They stand in
//! proofs alone.
ghost use Rattle.std.specs.Prelude.{ℕ, Bool, false, not, filter, List, [], ◌∷◌};
ghost use Rattle.ert_defs.specs.{declared.entry.Actor.Actor, declared.entry.Actor.TheVariants.Keeper, declared.entry.Entry.Entry, Settings.any_settings, declared.settings.Settings.Settings};
ghost use Rattle.ert_table.specs.{Acts.{Told, Read, Compared, ComparedAll, SittersMeet, Sees, any_entry}, Held.actors_but, Views.{holding, both, spent}};

use crate::view::View;
use atomic_table::{Join, Play, Split};
use std::marker::{Brand, PhantomData};

/// The settings of the desk, and the entry of a step for each word that it may find.
pub(crate) trait Carried {
    ghost settings: { Settings };

    ghost entry: { ℕ → Entry };
}

impl Carried for Brand {
    ghost settings = { any_settings };

    ghost entry = { λ n. any_entry };
}

/// A step that makes its entry.
pub(crate) struct Adds<C> {
    carried: PhantomData<C>,
}

impl<C: Carried> Play<(), View> for Adds<C> {
    ghost then = { λ step me n now. Told C.settings me (C.entry n) now };
}

/// A load that makes its entry, and finds a word of the state.
pub(crate) struct Loads<C> {
    carried: PhantomData<C>,
}

impl<C: Carried> Play<(), View> for Loads<C> {
    ghost then = { λ step me n now. Read C.settings step me (C.entry n) n now };
}

/// A step that makes its entry by what it finds.
pub(crate) struct Compares<C> {
    carried: PhantomData<C>,
}

impl<C: Carried> Play<(), View> for Compares<C> {
    ghost then = { λ step me n now. Compared C.settings step me (C.entry n) n now };
}

/// The settings of the desk, and the entries of a step for each word that it may find.
pub(crate) trait CarriedAll {
    ghost settings: { Settings };

    ghost entries: { ℕ → List Entry };
}

impl CarriedAll for Brand {
    ghost settings = { any_settings };

    ghost entries = { λ n. [] };
}

/// A step that makes several entries by what it finds.
pub(crate) struct ComparesAll<C> {
    carried: PhantomData<C>,
}

impl<C: CarriedAll> Play<(), View> for ComparesAll<C> {
    ghost then = { λ step me n now. ComparedAll C.settings step me (C.entries n) n now };
}

/// The settings of the desk.
pub(crate) trait Named {
    ghost settings: { Settings };
}

impl Named for Brand {
    ghost settings = { any_settings };
}

/// A load that tells a joined pass what it is joined of.
pub(crate) struct Learns<C> {
    named: PhantomData<C>,
}

impl<C: Named> Play<(), View> for Learns<C> {
    ghost then = { λ step me n now. SittersMeet C.settings me now };
}

/// A load that makes no entry, and finds a word of the state that the pass knows.
pub(crate) struct Shows<C> {
    named: PhantomData<C>,
}

impl<C: Named> Play<(), View> for Shows<C> {
    ghost then = { λ step me n now. Sees C.settings step me n now };
}

/// An actor.
pub(crate) trait Chosen {
    ghost actor: { Actor };
}

impl Chosen for Brand {
    ghost actor = { Keeper };
}

/// One actor goes to a new pass.
pub(crate) struct Cuts<C> {
    chosen: PhantomData<C>,
}

impl<C: Chosen> Split<View> for Cuts<C> {
    ghost left = { λ v. holding v (actors_but v.actors C.actor) };

    ghost right = { λ v. holding v (C.actor ∷ []) };
}

/// Some actors, by a test.
pub(crate) trait Picked {
    ghost mine: { Actor → Bool };
}

impl Picked for Brand {
    ghost mine = { λ a. false };
}

/// Some actors go to a new pass.
pub(crate) struct Divides<C> {
    picked: PhantomData<C>,
}

impl<C: Picked> Split<View> for Divides<C> {
    ghost left = { λ v. holding v (filter (λ a. not (C.mine a)) v.actors) };

    ghost right = { λ v. holding v (filter C.mine v.actors) };
}

/// All actors go to a new pass.
pub(crate) struct Empties;

impl Split<View> for Empties {
    ghost left = { λ v. holding v [] };

    ghost right = { λ v. holding v v.actors };
}

/// All actors stay, and a new pass without one knows as much.
pub(crate) struct Notes;

impl Split<View> for Notes {
    ghost left = { λ v. holding v v.actors };

    ghost right = { λ v. holding v [] };
}

/// Two passes become one.
pub(crate) struct Glues;

impl Join<View> for Glues {
    ghost both = { both };

    ghost spent = { spent };
}
