//! Changes of the time offset.

ghost use Rattle.ert_laws.specs.Changes.{LawOfChanges, LawOfChangesTold};

/// A message that tells a monitor that the time offset changed names the offset at its own Tell. That comes after
/// the point at which the monitor was last told an offset, or made, and the two offsets differ (`erlang`
/// module reference, `monitor`, type `time_offset`).
pub fn changes_tell_another_offset()
    ensures puts { LawOfChanges }
    ensures told { LawOfChangesTold }
{}
