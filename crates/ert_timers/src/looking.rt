//! The look with which a call begins, and what is computed from it.
ghost use Rattle.std.specs.Prelude.{◌≡◌, ◌≤◌, ℤ, ◌≤ℤ◌, ◌<ℤ◌, true, IfSome, option_map, pos};
ghost use Rattle.ert_defs.specs.{Actors.IsUser, Lines.end_time, Milliseconds.{down, deadline_of}, declared.settings.Settings.Settings as GivenSettings, declared.timer.When.TheVariants.After, declared.entry.Actor.TheVariants.Caller};
ghost use Rattle.ert_defs.specs.Milliseconds as milliseconds;
ghost use Rattle.ert_table.specs.{Desks.{settings_of, view_of, actors_of, Belongs}, Held.is_held};
ghost use Rattle.ert_timers.specs.{Looking.{LooksDown, LooksAhead, now_in}, declared.looking.Ahead.Ahead};

use ert_defs::milliseconds::{
    LAST_DEADLINE, NANOSECONDS_PER_MILLISECOND, deadline_at, rounded, rounded_up,
};
use ert_defs::{Actor, Settings, Start, When};
use ert_table::{Desk, Pass};

/// What a start is told by its look at the time.
#[derive(Clone, Copy)]
pub struct Ahead {
    /// The time of the look, in nanoseconds after the start time.
    pub(crate) passed: u64,
    /// The same in milliseconds, rounded up.
    pub(crate) up: u64,
    /// The deadline that is asked for, in milliseconds after the start time.
    pub(crate) deadline: u64,
}

impl Ahead {
    ghost use Rattle.std.specs.Prelude.{◌≡◌};
    ghost use Rattle.ert_timers.specs.Looking.{now_in};

    /// The time of the look in milliseconds after the start time, rounded down.
    ///
    /// Few starts need it, so it is computed where it is needed.
    #[inline(always)]
    pub(crate) fn rounded_down(self) -> u64
        ensures { result ≡ now_in self }
    {
        self.passed / NANOSECONDS_PER_MILLISECOND as u64
    }
}

/// Looks at the time: the whole milliseconds since the start time.
pub(crate) fn look_down(desk: &Desk, pass: &mut Pass, by: Actor) -> u64
    requires belongs { Belongs desk.now pass.old }
    requires held { is_held (actors_of pass.old) by ≡ true }
    requires user { IsUser (settings_of desk.now) by }
    ensures belongs { Belongs desk.now pass.new }
    ensures looks { LooksDown (settings_of desk.now) (view_of pass.old) by result (view_of pass.new) }
    ensures few { result ≤ 8796093022207 }
{
    let now = pass.look(desk, by);
    let (down, _) = rounded(desk.settings(), now);
    down
}

/// Looks at the time: that time and the deadline of a start by it; None where the start is refused.
pub(crate) fn look_ahead(desk: &Desk, pass: &mut Pass, by: u32, start: &Start) -> Option<Ahead>
    requires belongs { Belongs desk.now pass.old }
    requires held { is_held (actors_of pass.old) (Caller by) ≡ true }
    requires user { IsUser (settings_of desk.now) (Caller by) }
    ensures belongs { Belongs desk.now pass.new }
    ensures looks { LooksAhead (settings_of desk.now) (view_of pass.old) by start.now result (view_of pass.new) }
    ensures now { IfSome result (λ ahead. now_in ahead ≤ 8796093022207) }
    ensures deadline { IfSome result (λ ahead. ahead.deadline ≤ 8796093022207) }
{
    let now = pass.look(desk, Actor::Caller(by));
    ahead_at(desk.settings(), start, now)
}

/// What a start is told by a look that shows a time; None where it is refused.
fn ahead_at(settings: &Settings, start: &Start, now: i64) -> Option<Ahead>
    requires low { settings.now.start ≤ℤ now }
    requires high { now <ℤ end_time settings.now }
    ensures told { option_map (λ (a : Ahead). a.deadline) result ≡ deadline_of settings.now start.now now }
    ensures down_to { IfSome result (λ ahead. pos (now_in ahead) ≡ down settings.now now) }
    ensures up_to { IfSome result (λ ahead. pos ahead.up ≡ milliseconds.up settings.now now) }
    ensures now { IfSome result (λ ahead. now_in ahead ≤ 8796093022207) }
    ensures deadline { IfSome result (λ ahead. ahead.deadline ≤ 8796093022207) }
{
    let up = rounded_up(settings, now);
    let deadline = deadline_from(settings, start.when, up)?;
    Some(Ahead {
        passed: (now - settings.start) as u64,
        up,
        deadline,
    })
}

/// The deadline of a start at so many milliseconds after the start time, rounded up, both in milliseconds after the start
/// time; None where the start is refused.
#[inline]
fn deadline_from(settings: &Settings, when: When, up: u64) -> Option<u64>
    requires { up ≤ 8796093022207 }
    ensures told { (time : ℤ) → pos up ≡ milliseconds.up settings.now time → result ≡ milliseconds.deadline_when settings.now when time }
    ensures high { IfSome result (λ deadline. deadline ≤ 8796093022207) }
{
    match when {
        When::After(wait) => deadline_behind(up, wait),
        When::At(time) => deadline_at(settings, time),
    }
}

/// The deadline so many milliseconds later; None where that is outside its limits, or the number is negative.
///
/// One comparison tells both: a negative number is greater, without its sign, than what is left up to the last deadline.
#[inline]
fn deadline_behind(up: u64, wait: i64) -> Option<u64>
    requires { up ≤ 8796093022207 }
    ensures told { (settings : GivenSettings) (time : ℤ) → pos up ≡ milliseconds.up settings time
        → result ≡ milliseconds.deadline_when settings (After wait) time }
    ensures high { IfSome result (λ deadline. deadline ≤ 8796093022207) }
{
    let later = wait.cast_unsigned();
    if later > LAST_DEADLINE - up {
        return None;
    }
    Some(up + later)
}
