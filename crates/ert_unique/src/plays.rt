//! What a step on the table tells a pass, and how passes are divided and put together.
ghost use Rattle.std.specs.Prelude.{◌-◌};
ghost use Rattle.ert_unique.specs.{Steps.DrawsNext, Views.{keeping, part_of, taking_in, emptied}};

use crate::view::View;
use atomic_table::{Join, Play, Split};

/// The draw: the one kind of step.
pub(crate) struct Draws;

impl Play<(), View> for Draws {
    ghost then = { λ step me n now. DrawsNext me n now };
}

/// A new pass is made: a share goes to it.
pub(crate) struct Opens;

impl Split<View> for Opens {
    ghost left = { λ v. keeping v (v.share - 1) };

    ghost right = { λ v. part_of v 1 };
}

/// A note of what a pass has seen is made: it has no share, and the pass stays as it was.
pub(crate) struct Notes;

impl Split<View> for Notes {
    ghost left = { λ v. v };

    ghost right = { λ v. part_of v 0 };
}

/// Two passes become one.
pub(crate) struct Unites;

impl Join<View> for Unites {
    ghost both = { taking_in };

    ghost spent = { emptied };
}
