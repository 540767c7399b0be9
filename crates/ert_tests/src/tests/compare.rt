use std::fmt::Debug;
use std::process::Abort;

/// Ends the test where the step with this number, from 0, has another answer than the one that is wanted.
pub(crate) fn same<T: PartialEq + Debug>(rt: &impl Abort, step: usize, got: &T, wanted: &T) {
    assert!(rt;
        *got == *wanted,
        "step {step}: {got:?} in place of {wanted:?}"
    );
}
