//! Laws: the contracts of functions that do nothing.
ghost use Rattle.std.specs.Prelude.{◌≤◌, All, map};
ghost use Rattle.std.specs.List.Sorted.{IsStrictlyIncreasing};
ghost use Rattle.ert_unique.specs.{Laws.{LawOfPlainAnswers, LawOfStamps}, Numbers.AllDiffer, Passes.{draws_of, seen_of, number_of}, Plain.plain_together};

use crate::uniques::UniquePass;

/// The monotonic numbers that a pass drew rise, and are at most the greatest that it has seen.
pub fn monotonic_numbers_rise(pass: &UniquePass)
    ensures rising { IsStrictlyIncreasing (draws_of pass.now) }
    ensures seen { All (λ n. n ≤ seen_of pass.now) (draws_of pass.now) }
{}

/// A plain number tells which pass answered it, and as which of its answers.
pub fn plain_numbers_tell()
    ensures { LawOfPlainAnswers }
{}

/// All plain numbers that some passes answered are different, if the passes are.
pub fn plain_numbers_differ(passes: &Vec<UniquePass>)
    requires { AllDiffer (map number_of passes.now.items) }
    ensures { AllDiffer (plain_together passes.now.items) }
{}

/// The three numbers of a stamp are the whole of its microseconds, and each is in its range.
pub fn stamps_are_whole()
    ensures { LawOfStamps }
{}
