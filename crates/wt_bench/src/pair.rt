//! A pair of texts in the form that C passes.

/// A name and a value as C passes them, which need not be UTF-8.
#[repr(C)]
#[derive(Clone, Copy)]
pub struct Pair<'a> {
    /// The name.
    pub name: &'a [u8],
    /// The value.
    pub value: &'a [u8],
}
