//! Parts of bytes, as C passes them.

/// Takes the first of parts, each of which is after its length in two bytes.
pub(crate) fn first_part(parts: &[u8]) -> Option<(&[u8], &[u8])> {
    let (head, rest) = parts.split_at_checked(2)?;
    let len = head[0] as usize * 256 + head[1] as usize;
    rest.split_at_checked(len)
}
