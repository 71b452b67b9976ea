//! Whether text has colours if the arguments do not say so.
ghost use Rattle.std.specs.Prelude.{◌≡◌};
ghost use Rattle.wt_inspect.specs.CommandLine.{is_for_people};

use std::env::{self, VarError};
use std::io::IsTerminal;

/// Returns whether standard output is a terminal that shows colours, and the environment does not
/// say that none are wanted (`NO_COLOR`).
pub fn is_for_people(rt: &HostRuntime) -> bool {
    let is_terminal = rt.stdout().is_terminal();
    decides(is_terminal, is_set(rt, "NO_COLOR"), is_dumb(rt))
}

/// Returns whether text has colours, by whether the output is a terminal, whether colours are
/// unwanted, and whether the terminal is dumb.
fn decides(is_terminal: bool, is_unwanted: bool, is_dumb: bool) -> bool
    ensures { result ≡ is_for_people «is_terminal» «is_unwanted» «is_dumb» }
{
    is_terminal && !is_unwanted && !is_dumb
}

/// Returns whether a variable of the environment has a value that is not empty.
fn is_set(rt: &HostRuntime, name: &str) -> bool {
    match env::var(rt, name) {
        Ok(value) => !value.is_empty(),
        Err(VarError::NotPresent) => false,
        Err(_) => true,
    }
}

/// Returns whether the terminal shows text alone.
fn is_dumb(rt: &HostRuntime) -> bool {
    match env::var(rt, "TERM") {
        Ok(value) => value.as_str() == "dumb",
        Err(_) => false,
    }
}
