// Assertions as calls. A macro's panic is a branch in the body that it stands in, and is proved there each time: a call costs
// the proof of a body a fifth of that.
use std::fmt::Debug;
use std::process::Abort;

// Ends the test, and shows both, where what was found is not what was wanted.
pub(crate) fn assert_equal<R: Abort, T: PartialEq + Debug + Drop>(rt: &R, found: T, wanted: T) {
    assert_eq!(rt; found, wanted);
}

// Ends the test where this does not hold.
pub(crate) fn assert_that<R: Abort>(rt: &R, holds: bool) {
    assert!(rt; holds);
}
