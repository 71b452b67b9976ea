//! The check of one row.
use std::fmt::{Debug, Display};
use std::process::Abort;

/// Asserts that `came` equals `wanted`. A failure message gives the case and both values.
pub(crate) fn assert_same<R: Abort, T: PartialEq + Debug + Drop, S: Display + Drop>(
    rt: &R,
    came: T,
    wanted: T,
    case: S,
) {
    assert!(rt; came == wanted, "{case}: {came:?}, and not {wanted:?}");
}
