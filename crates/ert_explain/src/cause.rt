use crate::excess::Excess;
use crate::expected::Expected;
use crate::field_range::FieldRange;
use crate::field_shape::FieldShape;
use crate::op_range::OutOfRange;
use crate::op_shape::OpShape;

/// What is wrong with bytes that are no scenario.
#[derive(Clone, Copy)]
pub enum Cause {
    /// They stop being JSON, where this could stand.
    Json(Expected),
    /// The shape of the fields.
    Fields(FieldShape),
    /// The range of a field.
    FieldRange(FieldRange),
    /// The shape of an op.
    Op(OpShape),
    /// The range of an argument of an op.
    Argument(OutOfRange),
    /// The op is a start with the label of the start at this earlier place.
    Label(usize),
    /// Too many of something.
    Excess(Excess),
    /// None of these.
    Other,
}
