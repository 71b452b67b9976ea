//! Shows the contents of a recorded stream or datagram.
#![tactic(auto)]

ghost use Rattle.std.specs.Prelude.{◌≡◌, ◌≤◌, ◌<◌, ◌^◌, ◌⊎◌, IfOk};

mod arguments;
mod colors;
mod connection;
mod drawing;
mod failure;
mod files;
mod input;
mod sheet;
mod showing;

use crate::arguments::{Arguments, command, read_arguments};
use crate::colors::is_for_people;
use crate::connection::show_connection;
use crate::failure::Failure;
use crate::files::read_bytes;
use crate::input::read_hex;
use crate::showing::show;
use std::alloc::Global;
use std::env;
use std::io::{self, ErrorKind, Write};
use std::process::ExitCode;

fn main(rt: HostRuntime) -> ExitCode {
    ExitCode::from(match run(&rt) {
        Ok(status) => status,
        Err(failure) => {
            if !failure.is_silent() {
                let _ = writeln!(rt.stderr(), "wt_inspect: {failure}");
            }
            failure.status()
        }
    })
}

/// Runs the program and returns its exit status: 0, 1 for invalid arguments, or 2 if the input
/// contains an error.
fn run(rt: &HostRuntime) -> Result<u8, Failure>
    ensures { IfOk result (λ status. status ≤ 2) }
{
    let words = match read_words(rt) {
        Ok(words) => words,
        Err(error) => return Err(words_failure(&error)),
    };
    run_words(rt, words.as_slice())
}

/// Runs the program with these words as its name and arguments.
fn run_words<'a>(rt: &HostRuntime, words: &'a [String]) -> Result<u8, Failure>
    ensures { IfOk result (λ status. status ≤ 2) }
{
    let command = command(rt.alloc()).map_err(|_| Failure::Memory)?;
    match command.try_get_matches_from(words) {
        Ok(matches) => show_named(rt, &read_arguments(&matches, is_for_people(rt))),
        Err(error) => {
            error.print(rt).map_err(|_| Failure::Output)?;
            Ok(if error.use_stderr() { 1 } else { 0 })
        }
    }
}

/// Shows the connection or the input that the arguments name. Returns the exit status: 0, or 2 if it
/// contains an error.
fn show_named(rt: &HostRuntime, arguments: &Arguments<'_>) -> Result<u8, Failure>
    requires { arguments.now.capacity < 2 ^ 60 }
    ensures { IfOk result (λ status. (status ≡ 0) ⊎ (status ≡ 2)) }
{
    if arguments.is_connection {
        show_connection(rt, arguments)
    } else {
        show_input(rt, arguments)
    }
}

/// Shows the input that the arguments name. Returns the exit status: 0, or 2 if the input
/// contains an error.
fn show_input(rt: &HostRuntime, arguments: &Arguments<'_>) -> Result<u8, Failure>
    requires { arguments.now.capacity < 2 ^ 60 }
    ensures { IfOk result (λ status. (status ≡ 0) ⊎ (status ≡ 2)) }
{
    let alloc = rt.alloc();
    let bytes = read_input(rt, alloc, arguments)?;
    let instructions = read_encoder(rt, alloc, arguments.encoder)?;
    show(
        alloc,
        arguments,
        instructions.as_ref().map(|bytes| bytes.as_slice()),
        bytes.as_slice(),
        &mut rt.stdout(),
    )
}

/// Returns the program's name and arguments.
fn read_words(rt: &HostRuntime) -> io::Result<Vec<String>> {
    let words = env::args(rt)?.collect(rt.alloc())?;
    Ok(words)
}

/// Returns why the arguments could not be read.
fn words_failure(error: &io::Error) -> Failure {
    match error.kind() {
        ErrorKind::OutOfMemory => Failure::Memory,
        _ => Failure::Arguments,
    }
}

/// Reads the input that the arguments name: a file, or standard input.
fn read_input(
    rt: &HostRuntime,
    alloc: Global,
    arguments: &Arguments<'_>,
) -> Result<Vec<u8>, Failure> {
    let bytes = read_bytes(rt, alloc, arguments.file)?;
    if arguments.is_hex {
        read_hex(alloc, bytes.as_slice())
    } else {
        Ok(bytes)
    }
}

/// Reads the file with the encoder stream, if there is one.
fn read_encoder(
    rt: &HostRuntime,
    alloc: Global,
    file: Option<&str>,
) -> Result<Option<Vec<u8>>, Failure> {
    match file {
        Some(path) => Ok(Some(read_bytes(rt, alloc, Some(path))?)),
        None => Ok(None),
    }
}
