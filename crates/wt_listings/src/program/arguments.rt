//! Parses the arguments of the program.
ghost use Rattle.std.specs.Prelude.{◌≡◌, ◌≢◌, ℕ, [], ◌∷◌, IfSome, IfNone};
ghost use Rattle.wt_listings.specs.Program.{kind_name, texts_of, Names, NamesNone, WritesSize};
ghost use Rattle.wt_listings.specs.declared.listing.ListKind.{ListKind};

use crate::listing::ListKind;

/// The maximum number of bytes per call.
const MAX_SIZE: usize = 1_048_576;

/// What to list.
#[derive(Clone, Copy, Debug, PartialEq, Eq)]
pub enum Command {
    /// The frames of a recorded stream.
    Buffer(ListKind),
    /// The frames of a stream, read from a source that returns at most this many bytes per call:
    /// 1 to 1048576.
    Stepped(usize),
    /// The request for a session.
    Request,
}

/// Parses the arguments. Returns `None` if they do not name a command.
pub(crate) fn named_command(arguments: &[String]) -> Option<Command>
    ensures named { IfSome result (Names (texts_of arguments.now)) }
    ensures none { IfNone result (NamesNone (texts_of arguments.now)) }
{
    match arguments {
        [] => Some(Command::Buffer(ListKind::BiRemote)),
        [name] => plain_command(name.as_str()),
        [name, detail] => detailed_command(name.as_str(), detail.as_str()),
        _ => None,
    }
}

/// Returns the command with this name and no further argument.
fn plain_command(name: &str) -> Option<Command>
    ensures named { IfSome result (Names (name.now ∷ [])) }
    ensures none { IfNone result (NamesNone (name.now ∷ [])) }
{
    match name {
        "buffer" => Some(Command::Buffer(ListKind::BiRemote)),
        "request" => Some(Command::Request),
        _ => None,
    }
}

/// Returns the command with this name and this second argument.
fn detailed_command(name: &str, detail: &str) -> Option<Command>
    ensures named { IfSome result (Names (name.now ∷ detail.now ∷ [])) }
    ensures none { IfNone result (NamesNone (name.now ∷ detail.now ∷ [])) }
{
    match name {
        "buffer" => named_kind(detail).map(Command::Buffer),
        "stepped" => written_size(detail).map(Command::Stepped),
        _ => None,
    }
}

/// Returns the kind of stream with this name.
fn named_kind(name: &str) -> Option<ListKind>
    ensures named { IfSome result (λ kind. name.now ≡ kind_name kind) }
    ensures none { IfNone result ((kind : ListKind) → name.now ≢ kind_name kind) }
{
    match name {
        "bi-remote" => Some(ListKind::BiRemote),
        "bi-local" => Some(ListKind::BiLocal),
        "control" => Some(ListKind::Control),
        _ => None,
    }
}

/// Parses a number of bytes in decimal digits.
fn written_size(digits: &str) -> Option<usize>
    ensures named { IfSome result (WritesSize digits.now) }
    ensures none { IfNone result ((k : ℕ) → ¬ WritesSize digits.now k) }
{
    // `parse` accepts a plus sign, which is not a digit.
    if digits.starts_with('+') {
        return None;
    }
    match digits.parse::<usize>() {
        Ok(size) if (1..=MAX_SIZE).contains(&size) => Some(size),
        _ => None,
    }
}
