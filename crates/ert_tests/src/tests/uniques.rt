//! Unique integers of two passes, which draw in turn.
ghost use Rattle.std.specs.Prelude.{◌≡◌, IfOk};
ghost use Rattle.ert_unique.specs.Passes.{passes_of, BelongsToUniques, AreAll};

use ert_defs::NoMemory;
use ert_unique::{UniquePass, Uniques};
use std::alloc::{AllocError, Global};

/// A call on one of the two passes, and the number that it draws.
enum Draw {
    One(u64),
    Two(u64),
    /// The second pass is told what the first has seen.
    Meet,
    PlainOne(u64),
    PlainTwo(u64),
}

/// Whether a call answers as wanted.
fn answers(uniques: &Uniques, one: &mut UniquePass, two: &mut UniquePass, draw: &Draw) -> bool
    requires one { BelongsToUniques uniques.now one.old }
    requires two { BelongsToUniques uniques.now two.old }
    ensures one { BelongsToUniques uniques.now one.new }
    ensures two { BelongsToUniques uniques.now two.new }
{
    match *draw {
        Draw::One(want) => uniques.monotonic(one) == Ok(want),
        Draw::Two(want) => uniques.monotonic(two) == Ok(want),
        Draw::Meet => {
            uniques.meet(two, one);
            true
        }
        Draw::PlainOne(want) => one.plain() == Ok(want),
        Draw::PlainTwo(want) => two.plain() == Ok(want),
    }
}

/// Puts two passes back together.
fn together(
    alloc: Global,
    uniques: &Uniques,
    one: UniquePass,
    two: UniquePass,
) -> Result<Vec<UniquePass>, AllocError>
    requires two_passes { passes_of uniques.now ≡ 2 }
    requires one { BelongsToUniques uniques.now one }
    requires two { BelongsToUniques uniques.now two }
    ensures { IfOk result (λ passes. AreAll uniques.now passes.items) }
{
    let mut passes = Vec::with_capacity(alloc, 2)?;
    passes.push(one)?;
    passes.push(two)?;
    Ok(passes)
}

const DRAWS: [Draw; 9] = [
    Draw::One(1),
    Draw::Two(2),
    Draw::One(3),
    Draw::Meet,
    Draw::Two(4),
    // Each pass answers from a range of its own.
    Draw::PlainOne(1),
    Draw::PlainOne(2),
    Draw::PlainTwo(1_099_511_627_777),
    Draw::PlainTwo(1_099_511_627_778),
];

#[test]
fn passes_draw_in_turn(rt: HostRuntime) -> Result<(), NoMemory> {
    let (uniques, mut passes) = Uniques::open(rt.alloc(), 2)?;
    let mut two = passes.pop().expect(&rt, "there are two passes");
    let mut one = passes.pop().expect(&rt, "there are two passes");
    'draws: for (step, draw) in DRAWS.iter().enumerate() {
        assert!(rt; answers(&uniques, &mut one, &mut two, draw), "step {step}");
    }
    let passes = together(rt.alloc(), &uniques, one, two).expect(&rt, "there is memory");
    assert!(rt; uniques.close(passes) == 4);
    Ok(())
}
