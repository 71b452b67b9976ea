//! The program: its arguments, its input and output, and its statuses.
ghost use Rattle.std.specs.Prelude.{◌≡◌, ◌≢◌, ◌≤◌, ◌<◌, ◌⊎◌, length, Err};
ghost use Rattle.std.specs.Prelude.{IfOk, IfErr, IfSome, OnOk, vec_len};
ghost use Rattle.std.specs.Io.KnownBytes.{Appends, IsAtEnd, WriteAppends};
ghost use Rattle.wt_listings.specs.Listing.{HasText};
ghost use Rattle.wt_listings.specs.Program.{fault_line, fault_status, fault_text, texts_of, listing_of, CanList};
ghost use Rattle.wt_listings.specs.Program.{AppendsStart, EndsFailed, FailsBy, NamesNone, ListsArguments, ReadFails, ReadsWhole};

mod arguments;

use crate::listing::Listing;
use crate::listing::frames::list_frames;
use crate::listing::request::list_request;
use crate::listing::stepped::list_stepped;
pub use arguments::Command;
use arguments::named_command;
use std::alloc::{AllocError, Global};
use std::fmt;
use std::io::{self, Read, Write};

/// The greatest number of bytes of input that are listed.
const MAX_INPUT: usize = 1_048_576;

/// Why there is no listing.
#[derive(Clone, Copy, Debug, PartialEq, Eq)]
pub enum Fault {
    /// The arguments name no listing.
    Usage,
    /// More than 1048576 bytes of input.
    InputTooLong,
    /// Input could not be read.
    ReadFault,
    /// The listing could not be written.
    WriteFault,
    /// Allocation failed.
    NoMemory,
}

impl fmt::Display for Fault {
    ghost use Rattle.std.specs.Prelude.{Some};
    ghost use Rattle.wt_listings.specs.Program.{fault_text};

    ghost output = { λ fault. Some (fault_text fault) };

    fn fmt<W: fmt::Write>(&self, f: &mut fmt::Formatter<W>) -> fmt::Result {
        f.write_str(self.as_str())
    }
}

impl std::error::Error for Fault {}

impl Fault {
    /// The text of the fault, which is one line.
    pub fn as_str(self) -> &'static str
        ensures { result.now ≡ fault_text self }
    {
        match self {
            Fault::Usage => "wt_frames: usage",
            Fault::InputTooLong => "wt_frames: input too long",
            Fault::ReadFault => "wt_frames: read fault",
            Fault::WriteFault => "wt_frames: write fault",
            Fault::NoMemory => "wt_frames: no memory",
        }
    }

    /// The status with which the program ends.
    pub fn status(self) -> u8
        ensures { result ≡ fault_status self }
    {
        match self {
            Fault::Usage => 1,
            Fault::InputTooLong | Fault::ReadFault | Fault::WriteFault => 3,
            Fault::NoMemory => 4,
        }
    }
}

/// Lists the input as the arguments say, and returns the status with which the program ends.
///
/// - `buffer bi-remote`, `buffer bi-local`, `buffer control`: the frames, by [`list_frames`];
///   `buffer` or no argument for the first.
/// - `stepped k`: the frames, by [`list_stepped`]; `k` is from 1 to 1048576, written in decimal
///   digits only, with leading zeros or without.
/// - `request`: the fields of the request, by [`list_request`].
///
/// The status is that of the listing; 1 for other arguments, before anything is read or written; 3
/// for more than 1048576 bytes of input, a failed read and a failed write; 4 if allocation fails.
/// Input is read up to its end, or until it is too long: then at most 4096 bytes more are read.
///
/// With 1, 3 and 4 the line of the fault is written to `errors`, or only its start if a write
/// fails; with every other status `errors` is unchanged. Nothing is written to `output` before the
/// whole listing is made: with 1 and 4 `output` is unchanged, and with 3 too unless the listing
/// could not be written, of which it then contains the start.
pub fn run_program<R: Read, W: Write, E: Write>(
    alloc: Global,
    arguments: &[String],
    input: &mut R,
    output: &mut W,
    errors: &mut E,
) -> u8
    // With other arguments nothing is read or written.
    ensures usage { NamesNone (texts_of arguments.now)
        → (result ≡ 1) × (input.new ≡ input.old) × (output.new ≡ output.old) }
    ensures no_usage { result ≡ 1 → NamesNone (texts_of arguments.now) }
    // Status 0 and 2 come with the whole listing of the whole input.
    ensures lists { (result ≡ 0) ⊎ (result ≡ 2)
        → ListsArguments (texts_of arguments.now) (R.remaining input.old)
        (W.contents output.old) (W.contents output.new) result }
    // They also come with the input at its end.
    ensures ended { (result ≡ 0) ⊎ (result ≡ 2) → IsAtEnd (R.remaining input.new) }
    // Status 1 and 4 come with nothing written.
    ensures quiet { (result ≡ 1) ⊎ (result ≡ 4) → output.new ≡ output.old }
    // With status 3 nothing was written, unless the whole input was read and its listing was being
    // written.
    ensures refused { result ≡ 3 → (output.new ≡ output.old)
        ⊎ ReadsWhole (texts_of arguments.now) (R.remaining input.old) (R.remaining input.new) }
    // Status 0 and 2 come with no line of an error.
    ensures silent { (result ≡ 0) ⊎ (result ≡ 2) → errors.new ≡ errors.old }
    // Every other status is that of a fault. A start of its line was written: nothing says when a
    // write fails.
    ensures reported { ((result ≡ 0) ⊎ (result ≡ 2))
        ⊎ EndsFailed (texts_of arguments.now) (R.remaining input.old) (R.remaining input.new)
        (W.contents output.old) (W.contents output.new)
        (E.contents errors.old) (E.contents errors.new) (output.new ≡ output.old) result }
    ensures statuses { result ≤ 4 }
{
    match try_run(alloc, arguments, input, output) {
        Ok(status) => status,
        Err(fault) => {
            let _ = report(errors, fault);
            fault.status()
        }
    }
}

/// Writes the line of a fault, or the start of it if a write fails.
fn report<E: Write>(errors: &mut E, fault: Fault) -> io::Result<()>
    ensures whole { OnOk result (Appends (E.contents errors.old) (E.contents errors.new)
        (fault_line fault)) }
    ensures start { AppendsStart (fault_line fault) (E.contents errors.old)
        (E.contents errors.new) }
{
    write_start(errors, fault.as_str().as_bytes())?;
    write_start(errors, b"\n")
}

/// Writes bytes until a write fails.
fn write_start<W: Write>(writer: &mut W, bytes: &[u8]) -> io::Result<()>
    ensures whole { OnOk result (Appends (W.contents writer.old) (W.contents writer.new)
        bytes.now) }
    ensures start { AppendsStart bytes.now (W.contents writer.old) (W.contents writer.new) }
{
    let mut rest = bytes;
    'writes: while !rest.is_empty() {
        let count = write_some(writer, rest)?;
        if count == 0 {
            return Err(io::Error::from(io::ErrorKind::WriteZero));
        }
        rest = &rest[count..];
    }
    Ok(())
}

/// Writes once, and again if a write was interrupted.
#[tactic(auto, using(crate::proofs::Known::keeps_none, crate::proofs::Known::keeps_then, crate::proofs::Known::keeps_write))]
fn write_some<W: Write>(writer: &mut W, bytes: &[u8]) -> io::Result<usize>
    ensures count { IfOk result (λ n. n ≤ length bytes.now) }
    ensures bytes { WriteAppends (W.contents writer.old) (W.contents writer.new) result
        bytes.now }
{
    'tries: for _try in 0..u64::MAX {
        match writer.write(bytes) {
            Err(fault) if fault.kind() == io::ErrorKind::Interrupted => {}
            written => return written,
        }
    }
    Err(io::Error::from(io::ErrorKind::Interrupted))
}

/// The same, but returns a fault in place of its line and status.
#[tactic(auto, using(crate::proofs::Faults::in_reading, crate::proofs::Faults::in_listing, crate::proofs::Faults::in_writing))]
fn try_run<R: Read, W: Write>(
    alloc: Global,
    arguments: &[String],
    input: &mut R,
    output: &mut W,
) -> Result<u8, Fault>
    ensures usage { NamesNone (texts_of arguments.now)
        → (result ≡ Err Fault.Usage) × (input.new ≡ input.old) }
    ensures no_usage { result ≡ Err Fault.Usage → NamesNone (texts_of arguments.now) }
    ensures fails { IfErr result (λ e. FailsBy e (texts_of arguments.now)
        (R.remaining input.old) (R.remaining input.new)
        (W.contents output.old) (W.contents output.new)) }
    ensures lists { IfOk result (ListsArguments (texts_of arguments.now) (R.remaining input.old)
        (W.contents output.old) (W.contents output.new)) }
    ensures status { IfOk result (λ s. (s ≡ 0) ⊎ (s ≡ 2)) }
    ensures ended { IfOk result (λ _. IsAtEnd (R.remaining input.new)) }
    ensures quiet { IfErr result (λ e. e ≢ Fault.WriteFault → output.new ≡ output.old) }
    ensures unwritten { result ≡ Err Fault.WriteFault
        → ReadsWhole (texts_of arguments.now) (R.remaining input.old) (R.remaining input.new) }
{
    let command = named_command(arguments).ok_or(Fault::Usage)?;
    let bytes = read_input(alloc, input)?;
    let listing = list(alloc, command, bytes.as_slice()).map_err(|_| Fault::NoMemory)?;
    write_output(output, listing.text.as_slice())?;
    Ok(listing.status)
}

/// Returns the listing of a command.
fn list(alloc: Global, command: Command, input: &[u8]) -> Result<Listing, AllocError>
    requires { CanList command }
    ensures listing { IfOk result (λ l. HasText l (listing_of command input.now)) }
    ensures status { IfOk result (λ l. (l.status ≡ 0) ⊎ (l.status ≡ 2)) }
{
    match command {
        Command::Buffer(kind) => list_frames(alloc, kind, input),
        Command::Stepped(size) => list_stepped(alloc, size, input),
        Command::Request => list_request(alloc, input),
    }
}

/// Returns all of the input.
#[tactic(auto, using(crate::proofs::Faults::failed, crate::proofs::Faults::unstored, crate::proofs::Faults::too_much))]
pub fn read_input<R: Read>(alloc: Global, input: &mut R) -> Result<Vec<u8>, Fault>
    ensures whole { IfOk result (λ bytes. IfSome (R.remaining input.old) (λ xs. bytes.items ≡ xs)) }
    ensures short { IfOk result (λ bytes. vec_len bytes ≤ 1048576) }
    ensures ended { IfOk result (λ _. IsAtEnd (R.remaining input.new)) }
    ensures too_long { result ≡ Err Fault.InputTooLong
        → IfSome (R.remaining input.old) (λ xs. 1048576 < length xs) }
    ensures faults { IfErr result (λ e. (e ≢ Fault.Usage) × (e ≢ Fault.WriteFault)) }
    ensures taken { IfErr result (λ e. ReadFails e (R.remaining input.old)
        (R.remaining input.new)) }
{
    let mut bytes = Vec::new(alloc);
    let mut chunk = [0; 4096];
    // Each turn but the last adds at least one byte, so the turns end at the limit.
    'turns: loop {
        let count = input.read(&mut chunk).map_err(|_| Fault::ReadFault)?;
        if count == 0 {
            return Ok(bytes);
        }
        bytes
            .extend_from_slice(&chunk[..count])
            .map_err(|_| Fault::NoMemory)?;
        if bytes.len() > MAX_INPUT {
            return Err(Fault::InputTooLong);
        }
    }
}

/// Writes the whole listing.
#[tactic(auto, using(crate::proofs::Known::appends_keeps, crate::proofs::ProgramLemmas::start_whole))]
pub fn write_output<W: Write>(output: &mut W, text: &[u8]) -> Result<(), Fault>
    ensures whole { OnOk result (Appends (W.contents output.old) (W.contents output.new) text.now) }
    ensures start { AppendsStart text.now (W.contents output.old) (W.contents output.new) }
    ensures fault { IfErr result (λ e. e ≡ Fault.WriteFault) }
{
    write_start(output, text).map_err(|_| Fault::WriteFault)?;
    output.flush().map_err(|_| Fault::WriteFault)
}
