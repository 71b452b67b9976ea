//! Checks of the display and debug output of a value.
use crate::same::assert_same;
use std::fmt::{Debug, Display};
use std::process::Abort;

/// Asserts the display output of a value.
pub fn displays<R: Abort + AllocGlobal, T: Display>(rt: &R, value: &T, wanted: &str) {
    let text = value.to_string(rt.alloc()).expect(rt, wanted);
    assert_same(rt, text.as_str(), wanted, "for display");
}

/// Asserts the debug output of a value.
pub fn debugs<R: Abort + AllocGlobal, T: Debug>(rt: &R, value: &T, wanted: &str) {
    let text = format!(in rt.alloc(); "{value:?}").expect(rt, wanted);
    assert_same(rt, text.as_str(), wanted, "for debugging");
}
