//! Builds a listing line by line.
ghost use Rattle.std.specs.Prelude.{◌≡◌, ℕ, List, [], ◌++◌, IfOk, codes, string_bytes};
ghost use Rattle.wt_listings.specs.Lines.{line, with_ending};
ghost use Rattle.wt_listings.specs.Listing.{HasText};
ghost use Rattle.wt_listings.specs.Request.{field_line};
ghost use Rattle.wtransport_proto.specs.Run.{Open, H3};

use crate::listing::Listing;
use std::alloc::{AllocError, Global};
use std::marker::Model;
use wtransport_proto::error::ErrorCode;
use wtransport_proto::frame::{Frame, FrameKind};

/// The lines of a listing so far, written directly into its text.
///
/// The call that writes the last line sets both the text and the status of the listing:
/// [`end`](Lines::end) or [`fault`](Lines::fault).
#[derive(Drop)]
pub struct Lines {
    text: String,
}

// The bytes of the text.
impl Model for Lines {
    ghost Value = { List ℕ };

    ghost view = { λ lines. string_bytes lines.text };
}

impl Lines {
    /// Creates an empty listing.
    pub fn new(alloc: Global) -> Self
        ensures { result ≡ [] }
    {
        Lines {
            text: String::new(alloc),
        }
    }

    /// Appends the line of a frame.
    ///
    /// Returns [`AllocError`] if allocation fails. The lines are then unspecified.
    pub fn frame(&mut self, frame: &Frame<'_>) -> Result<(), AllocError>
        ensures { IfOk result (λ _. self.new ≡ self.old ++ line frame.now) }
    {
        if let Some(session) = frame.session_id() {
            let id = session.into_u64();
            return writeln!(self.text, "WEBTRANSPORT {id}");
        }
        let size = frame.payload().len();
        match frame.kind() {
            FrameKind::Data => writeln!(self.text, "DATA {size}"),
            FrameKind::Headers => writeln!(self.text, "HEADERS {size}"),
            FrameKind::Settings => writeln!(self.text, "SETTINGS {size}"),
            FrameKind::Exercise(number) => {
                let id = number.into_inner();
                writeln!(self.text, "EXERCISE {id} {size}")
            }
            FrameKind::WebTransport => unreachable!(),
        }
    }

    /// Appends `words` and a line feed. It is one line if `words` contains none.
    ///
    /// Returns [`AllocError`] if allocation fails. The lines are then unspecified.
    pub fn add(&mut self, words: &str) -> Result<(), AllocError>
        ensures { IfOk result (λ _. self.new ≡ self.old ++ words.now ++ codes "\n") }
    {
        writeln!(self.text, "{words}")
    }

    /// Appends the line of a field.
    ///
    /// Returns [`AllocError`] if allocation fails. The lines are then unspecified.
    pub fn field(&mut self, name: &str, value: &str) -> Result<(), AllocError>
        ensures { IfOk result (λ _. self.new ≡ self.old ++ field_line (name.now, value.now)) }
    {
        writeln!(self.text, "FIELD {name}={value}")
    }

    /// Returns the listing, ended by a line with the number of bytes after the last frame.
    ///
    /// Returns [`AllocError`] if allocation fails.
    pub fn end(mut self, rest: usize) -> Result<Listing, AllocError>
        ensures { IfOk result (λ l. HasText l (with_ending self (Open rest))) }
    {
        writeln!(self.text, "END {rest}")?;
        Ok(Listing {
            text: self.text.into_bytes(),
            status: 0,
        })
    }

    /// Returns the listing, ended by a line with the error code that ends the stream.
    ///
    /// Returns [`AllocError`] if allocation fails.
    pub fn fault(mut self, code: ErrorCode) -> Result<Listing, AllocError>
        ensures { IfOk result (λ l. HasText l (with_ending self (H3 code))) }
    {
        let number = code.to_code().into_inner();
        writeln!(self.text, "FAULT {code} {number}")?;
        Ok(Listing {
            text: self.text.into_bytes(),
            status: 2,
        })
    }
}
