//! Lists the frames of a recorded stream that is read from standard input.
#![tactic(auto)]

use std::env::{self, Env};
use std::io::{self, Write};
use std::process::ExitCode;
use wt_listings::program::Fault;
pub use wt_listings::{ListKind, Listing, list_frames, list_request, list_stepped, run_program};

fn main(rt: HostRuntime) -> ExitCode {
    let status = match arguments(&rt) {
        Ok(arguments) => run_program(
            rt.alloc(),
            arguments.as_slice(),
            &mut rt.stdin(),
            &mut rt.stdout(),
            &mut rt.stderr(),
        ),
        Err(error) => {
            let fault = fault_of(error);
            let _ = writeln!(rt.stderr(), "{fault}");
            fault.status()
        }
    };
    ExitCode::from(status)
}

/// Returns why there are no arguments: allocation failed, or they are not UTF-8.
fn fault_of(error: io::Error) -> Fault {
    match error.kind() {
        io::ErrorKind::OutOfMemory => Fault::NoMemory,
        _ => Fault::Usage,
    }
}

/// Returns the program's arguments, without its name.
fn arguments<R: Env + AllocGlobal>(rt: &R) -> io::Result<Vec<String>> {
    let arguments = env::args(rt)?.skip(1).collect(rt.alloc())?;
    Ok(arguments)
}
