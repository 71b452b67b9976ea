//! Checks of error texts.
use crate::same::assert_same;
use std::alloc::{AllocError, Global};
use std::fmt::Display;
use std::process::Abort;

/// Returns the text of an error, again if allocation failed.
fn text_of<E: Display>(alloc: Global, fault: &E) -> Result<String, AllocError> {
    match fault.to_string(alloc) {
        Ok(text) => Ok(text),
        Err(_) => fault.to_string(alloc),
    }
}

/// Asserts the text of an error. A failed allocation is repeated.
pub fn has_text<R: Abort + AllocGlobal, E: Display>(rt: &R, fault: &E, wanted: &str) {
    let text = text_of(rt.alloc(), fault).expect(rt, "memory");
    assert_same(rt, text.as_str(), wanted, "its text");
}
