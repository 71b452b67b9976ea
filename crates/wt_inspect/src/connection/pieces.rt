//! Reads the list of a connection, and the files that it names.

use crate::arguments::Arguments;
use crate::failure::Failure;
use crate::files::{
    NO_NOTES, Notes, is_folder, name_failure, read_bytes, read_file, say, shown_bytes,
};
use crate::input::read_hex;
use std::alloc::{AllocError, Global};
use wt_inspect_connection::list::{Entry, ListError, read_list};
use wt_inspect_connection::piece::Piece;

/// The name of the list in a folder, as `tools/capture-streams` writes it.
const LIST_NAME: &str = "list";

/// What is said of a folder without a list.
const NO_LIST: Notes<'static> = Notes {
    before: "",
    missing: "; write this file, with a line for each recorded file, such as '0 client request.bin' (--help has more)",
};

/// How many bytes of a wrong word are shown.
const SHOWN: usize = 40;

/// Returns the path of the list in a folder, or `None` if this is the path of no folder.
pub(super) fn list_in(
    rt: &HostRuntime,
    alloc: Global,
    path: Option<&str>,
) -> Result<Option<String>, AllocError> {
    match path {
        None | Some("-") => Ok(None),
        Some(path) if is_folder(rt, path) => {
            let folder = path.trim_end_matches('/');
            Ok(Some(format!(in alloc; "{folder}/{LIST_NAME}")?))
        }
        Some(_) => Ok(None),
    }
}

/// Reads the text of a list: that of a folder, if it is in one, or the input.
pub(super) fn read_text(
    rt: &HostRuntime,
    alloc: Global,
    in_folder: Option<&str>,
    input: Option<&str>,
) -> Result<Vec<u8>, Failure> {
    match in_folder {
        Some(path) => read_file(rt, alloc, path, &NO_LIST),
        None => read_bytes(rt, alloc, input),
    }
}

/// Reads the entries of a list.
pub(super) fn read_entries<'a>(
    rt: &HostRuntime,
    alloc: Global,
    list: Option<&str>,
    text: &'a [u8],
) -> Result<Vec<Entry<'a>>, Failure> {
    let Ok(text) = str::from_utf8(text) else {
        let reason = Failure::NotText;
        say(rt, named(list), "", format!(in alloc; "{reason}"));
        return Err(Failure::Named);
    };
    match read_list(alloc, text) {
        Ok(entries) => Ok(entries),
        Err(ListError::Memory) => Err(Failure::Memory),
        Err(error) => {
            say(rt, named(list), "", reason_of(alloc, &error));
            Err(Failure::from(error))
        }
    }
}

/// Returns the name of a list, unless it is standard input.
fn named(list: Option<&str>) -> Option<&str> {
    match list {
        None | Some("-") => None,
        Some(path) => Some(path),
    }
}

/// Returns why a text is no list, with the word that is wrong.
fn reason_of(alloc: Global, error: &ListError<'_>) -> Result<String, AllocError> {
    match error.word() {
        Some(word) => {
            let word = shown_word(alloc, word)?;
            format!(in alloc; "{error}: '{word}'")
        }
        None => format!(in alloc; "{error}"),
    }
}

/// Returns the displayed form of a word, of which two dots stand for what comes after `SHOWN` bytes.
fn shown_word(alloc: Global, word: &str) -> Result<String, AllocError> {
    let bytes = word.as_bytes();
    let front = front_of(bytes);
    let mut shown = shown_bytes(alloc, front)?;
    if front.len() < bytes.len() {
        shown.push_str("..")?;
    }
    Ok(shown)
}

/// Returns the first `SHOWN` bytes, or all if they are fewer.
fn front_of(bytes: &[u8]) -> &[u8] {
    let end = bytes.len().min(SHOWN);
    &bytes[..end]
}

/// Reads the files of these entries.
pub(super) fn read_pieces<'a>(
    rt: &HostRuntime,
    alloc: Global,
    arguments: &Arguments<'_>,
    entries: &[Entry<'a>],
) -> Result<Vec<Piece<'a>>, Failure> {
    let mut pieces = Vec::new(alloc);
    for entry in entries {
        let bytes = read_piece(rt, alloc, arguments, entry)?;
        let piece = Piece {
            entry: *entry,
            bytes,
        };
        match pieces.push(piece) {
            Ok(()) => {}
            Err(_) => return Err(Failure::Memory),
        }
    }
    Ok(pieces)
}

/// Reads the file of an entry.
fn read_piece(
    rt: &HostRuntime,
    alloc: Global,
    arguments: &Arguments<'_>,
    entry: &Entry<'_>,
) -> Result<Vec<u8>, Failure> {
    let path = path_of(alloc, arguments.file, entry.file)?;
    let line = entry.line;
    let before = format!(in alloc; "line {line} of the list: ")?;
    let notes = Notes {
        before: before.as_str(),
        ..NO_NOTES
    };
    let bytes = read_file(rt, alloc, path.as_str(), &notes)?;
    if !arguments.is_hex {
        return Ok(bytes);
    }
    match read_hex(alloc, bytes.as_slice()) {
        Ok(bytes) => Ok(bytes),
        Err(failure) => Err(name_failure(rt, path.as_str(), &notes, failure)),
    }
}

/// Returns the path of a file, which is relative to the folder of the list.
fn path_of(alloc: Global, list: Option<&str>, file: &str) -> Result<String, AllocError> {
    let mut path = String::from_str(alloc, folder_of(list, file))?;
    path.push_str(file)?;
    Ok(path)
}

/// Returns what comes before the name of a file that a list names: the path of the list up to its
/// last slash, unless the file has an absolute path.
fn folder_of<'a>(list: Option<&'a str>, file: &str) -> &'a str {
    match list {
        Some(list) if !file.starts_with('/') => up_to_slash(list),
        _ => "",
    }
}

/// Returns a path up to its last slash.
fn up_to_slash(path: &str) -> &str {
    match path.rsplit_once('/') {
        Some((folder, _)) => &path[..folder.len() + 1],
        None => "",
    }
}
