//! Checks of the debug and display output of a value.
use crate::same::assert_same;
use std::alloc::{AllocError, Global};
use std::fmt::{Debug, Display};
use std::process::Abort;

/// Asserts the debug output of a value.
pub fn prints<R: Abort + AllocGlobal, T: Debug>(rt: &R, value: &T, wanted: &str, case: &str) {
    let text = format!(in rt.alloc(); "{value:?}").expect(rt, "memory");
    assert_same(rt, text.as_str(), wanted, case);
}

/// Returns the text of an error, again if allocation failed.
fn text_of<E: Display>(alloc: Global, fault: &E) -> Result<String, AllocError> {
    match fault.to_string(alloc) {
        Ok(text) => Ok(text),
        Err(_) => fault.to_string(alloc),
    }
}

/// Asserts the text of an error. A failed allocation is repeated.
pub fn has_text<R: Abort + AllocGlobal, E: Display>(rt: &R, fault: &E, wanted: &str) {
    let text = text_of(rt.alloc(), fault).expect(rt, "memory");
    assert_same(rt, text.as_str(), wanted, "its text");
}
