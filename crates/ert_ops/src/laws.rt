//! Laws of conversions and of transcripts, each the contract of a function that does nothing, so that it is proved
//! wherever this crate is.

ghost use Rattle.ert_ops.specs.{Conversions.LawOfRounding, Laws.{LawOfOneText, LawOfOneTranscript, LawOfPlainCounts, LawOfFronts}};

/// A converted time is the greatest one of the other unit that isn't later than the time.
pub fn conversions_round_down()
    ensures { LawOfRounding }
{}

/// What a script run of a list of ops prints is what the plain service prints, whatever slots its starts
/// took and whatever was looked at in between, where a start looks at as many slots as there are ops
/// (`Settings::looks`). So settings and ops have one transcript, and each script run leaves as many timers of
/// each status.
pub fn one_transcript()
    ensures text { LawOfOneText }
    ensures one { LawOfOneTranscript }
    ensures counts { LawOfPlainCounts }
{}

/// What a script run of some first ops prints is the first part of what all ops print.
pub fn first_lines()
    ensures { LawOfFronts }
{}
