//! Reads files, and says which of them could not be read.
use crate::failure::Failure;
use crate::input::read_all;
use std::alloc::{AllocError, Global};
use std::fs;
use std::io::{ErrorKind, Write};
use wt_inspection_views::escaped::add_escaped;

/// What a message about a file has beside its name and the reason.
#[derive(Clone, Copy)]
pub struct Notes<'a> {
    /// What comes before the name.
    pub before: &'a str,
    /// What comes after the reason, if there is no such file.
    pub missing: &'a str,
}

/// No notes.
pub const NO_NOTES: Notes<'static> = Notes {
    before: "",
    missing: "",
};

/// Reads a file, or standard input if `file` is `None` or `-`.
pub fn read_bytes(rt: &HostRuntime, alloc: Global, file: Option<&str>) -> Result<Vec<u8>, Failure> {
    match file {
        None | Some("-") => read_all(alloc, &mut rt.stdin()),
        Some(path) => read_file(rt, alloc, path, &NO_NOTES),
    }
}

/// Returns whether this is the path of a folder.
pub fn is_folder(rt: &HostRuntime, path: &str) -> bool {
    match fs::metadata(rt, path) {
        Ok(found) => found.is_dir(),
        Err(_) => false,
    }
}

/// Reads a file.
///
/// # Errors
///
/// Returns [`Failure::Named`], after a message with the name of the file, the reason and these notes,
/// if it cannot be opened or read, or is too long, and [`Failure::Memory`] if allocation fails.
pub fn read_file(
    rt: &HostRuntime,
    alloc: Global,
    path: &str,
    notes: &Notes<'_>,
) -> Result<Vec<u8>, Failure> {
    match fs::open(rt, path) {
        Ok(mut file) => {
            read_all(alloc, &mut file).map_err(|failure| name_failure(rt, path, notes, failure))
        }
        Err(error) => {
            let missing = match error.kind() {
                ErrorKind::NotFound => notes.missing,
                _ => "",
            };
            let reason = format!(in alloc; "{error}{missing}");
            say(rt, Some(path), notes.before, reason);
            Err(Failure::Named)
        }
    }
}

/// Writes why a file could not be read, with its name and these notes, unless memory is missing.
/// Returns the failure that is left: [`Failure::Named`], or [`Failure::Memory`].
pub fn name_failure(rt: &HostRuntime, path: &str, notes: &Notes<'_>, failure: Failure) -> Failure {
    match failure {
        Failure::Memory => Failure::Memory,
        failure => {
            let reason = format!(in rt.alloc(); "{failure}");
            say(rt, Some(path), notes.before, reason);
            Failure::Named
        }
    }
}

/// Writes a reason to standard error, after the name of a file, if there is one, and what comes
/// before that.
pub fn say(rt: &HostRuntime, path: Option<&str>, before: &str, reason: Result<String, AllocError>) {
    if let (Ok(name), Ok(reason)) = (before_reason(rt.alloc(), path), reason) {
        let _ = writeln!(rt.stderr(), "wt_inspect: {before}{name}{reason}");
    }
}

/// Returns the displayed form of a name and a colon, or nothing if there is no name.
fn before_reason(alloc: Global, path: Option<&str>) -> Result<String, AllocError> {
    match path {
        Some(path) => {
            let name = shown_name(alloc, path)?;
            format!(in alloc; "{name}: ")
        }
        None => Ok(String::new(alloc)),
    }
}

/// Returns the displayed form of a name.
pub fn shown_name(alloc: Global, path: &str) -> Result<String, AllocError> {
    shown_bytes(alloc, path.as_bytes())
}

/// Returns the displayed form of bytes.
pub fn shown_bytes(alloc: Global, bytes: &[u8]) -> Result<String, AllocError> {
    let mut shown = String::new(alloc);
    add_escaped(&mut shown, bytes)?;
    Ok(shown)
}
