/// Who does the ops of a list, which decides what ops may stand there.
#[derive(Clone, Copy)]
pub(crate) enum ListDoer {
    /// One thread does the ops of all, as in the field `ops`.
    Everyone,
    /// The thread of the clock.
    Keeper,
    /// A caller.
    Caller,
}
