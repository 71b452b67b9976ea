//! The streams of a recorded connection, as the end that judges has them.

use crate::asked::{any_request, any_session, request_in, status_in};
use crate::player::Player;
use crate::reading::{Outline, read_outline, size_of_settings};
use crate::stream::Stream;
use crate::terms::Terms;
use std::alloc::{AllocError, Global};
use wt_inspect_connection::list::{Channel, Sender};
use wt_inspect_connection::piece::{Piece, opening_bytes, purpose_in, stream_for};
use wt_inspect_connection::purpose::Purpose;
use wt_inspection::{Insertions, Recorded};
use wtp_core::varint::first_varint;
use wtp_fields::fields::FieldList;

/// The bytes of a control stream whose SETTINGS allow sessions, for a recording without one.
const ANY_CONTROL: &[u8] = &[
    0x00, 0x04, 0x09, 0x08, 0x01, 0x33, 0x01, 0xab, 0x60, 0x37, 0x42, 0x01,
];

/// The first ID that no stream has that is judged: a connection keeps an entry for each stream below one that came.
const END: u64 = 1 << 18;

/// A connection that is judged.
#[derive(Clone, Copy)]
pub(crate) struct Case<'a> {
    pub(crate) alloc: Global,
    pub(crate) pieces: &'a [Piece<'a>],
    /// The end that judges.
    pub(crate) by: Sender,
    /// Whether more bytes may follow on each stream.
    pub(crate) is_open: bool,
    /// What the end that judges announced.
    pub(crate) terms: Terms,
    /// The IDs of the sessions that streams and datagrams belong to.
    pub(crate) sessions: &'a [u64],
    /// What the field sections of the end that judges refer to, if that is known.
    pub(crate) sent: Option<&'a Insertions<'a>>,
    /// Whether the decoder stream of the peer is judged: nothing was inserted into the table that it
    /// is about.
    pub(crate) has_decoder: bool,
}

impl<'a> Case<'a> {
    /// Adds the streams on which the peer sent something.
    pub(crate) fn add_streams(&self, player: &mut Player<'a>) -> Result<(), AllocError> {
        for piece in self.pieces {
            match piece.entry.channel {
                Channel::Stream(id) if is_of_peer(self.by, piece) => {
                    self.add_stream(player, id, piece.bytes.as_slice())?;
                }
                _ => {}
            }
        }
        Ok(())
    }

    /// Adds a stream on which the peer sent these bytes, unless it is not known what it is, or a push
    /// that was allowed. One of a session that the end that judges opened breaks no rule.
    fn add_stream(
        &self,
        player: &mut Player<'a>,
        id: u64,
        bytes: &'a [u8],
    ) -> Result<(), AllocError> {
        let purpose = purpose_in(self.pieces, id);
        let outline = self.outline_of(purpose, bytes)?;
        let is_push = outline.has_promise || purpose == Purpose::Push;
        let is_own = self.by.has_opened(id) && purpose != Purpose::Request;
        if id >= END || is_own || (self.terms.allows_pushes && is_push) {
            return Ok(());
        }
        let fin = !self.is_open && !is_critical(purpose);
        player.add(id, Stream::new(bytes, outline.count, fin))?;
        self.limit(player, id, purpose, bytes)
    }

    /// Returns what is known of a message of the peer before it is judged.
    fn outline_of(&self, purpose: Purpose, bytes: &[u8]) -> Result<Outline, AllocError> {
        match (purpose, self.by) {
            (Purpose::Request, Sender::Client) => {
                read_outline(self.alloc, Recorded::Response, bytes)
            }
            (Purpose::Request, Sender::Server) => read_outline(self.alloc, Recorded::Bi, bytes),
            _ => Ok(Outline::new()),
        }
    }

    /// Returns the fields of the request on a stream: those that are recorded, if they are known.
    fn request_on(&self, id: u64) -> Result<FieldList, AllocError> {
        let recorded = request_in(self.alloc, opening_bytes(self.pieces, id), self.sent)?;
        match recorded {
            Some(list) => Ok(list),
            None if self.sessions.contains(&id) => any_session(self.alloc),
            None => any_request(self.alloc),
        }
    }

    /// Lets a control stream be read up to its first frame, the encoder stream step by step, and of a
    /// decoder stream that is not judged only the type.
    fn limit(
        &self,
        player: &mut Player<'a>,
        id: u64,
        purpose: Purpose,
        bytes: &[u8],
    ) -> Result<(), AllocError> {
        match purpose {
            Purpose::Control => player.limit(id, size_of_settings(self.alloc, bytes)?),
            Purpose::Encoder if self.is_first_encoder(id) => player.set_encoder(id),
            Purpose::Decoder if !self.has_decoder => player.limit(id, size_of_type(bytes)),
            _ => {}
        }
        Ok(())
    }

    /// Returns whether the peer opened no encoder stream before this one.
    fn is_first_encoder(&self, id: u64) -> bool {
        for piece in self.pieces {
            match piece.entry.channel {
                Channel::Stream(other) if other < id && is_of_peer(self.by, piece) => {
                    if purpose_in(self.pieces, other) == Purpose::Encoder {
                        return false;
                    }
                }
                _ => {}
            }
        }
        true
    }

    /// Adds what the end that judges sent: its requests, also those that are known by their responses
    /// alone, or its answers.
    pub(crate) fn add_own(&self, player: &mut Player<'a>) -> Result<(), AllocError> {
        for piece in self.pieces {
            match piece.entry.channel {
                Channel::Stream(id) if purpose_in(self.pieces, id) == Purpose::Request => {
                    self.add_message(player, id, piece)?;
                }
                _ => {}
            }
        }
        Ok(())
    }

    /// Adds a request or a response of the end that judges, on the stream that this piece is of.
    fn add_message(
        &self,
        player: &mut Player<'a>,
        id: u64,
        piece: &Piece<'_>,
    ) -> Result<(), AllocError> {
        match self.by {
            Sender::Client if id < END => player.add_request(id, self.request_on(id)?),
            Sender::Server if !is_of_peer(self.by, piece) => {
                match status_in(self.alloc, piece.bytes.as_slice(), self.sent)? {
                    Some(status) => player.add_answer(id, status),
                    None => Ok(()),
                }
            }
            _ => Ok(()),
        }
    }

    /// Adds a control stream if that of the peer is not recorded.
    pub(crate) fn add_control(&self, player: &mut Player<'a>) -> Result<(), AllocError> {
        if stream_for(self.pieces, other_end(self.by), Purpose::Control).is_some() {
            return Ok(());
        }
        let mut id: u64 = match self.by {
            Sender::Client => 3,
            Sender::Server => 2,
        };
        for _stream in self.pieces {
            if player.has(id) {
                id = id.saturating_add(4);
            }
        }
        player.add(id, Stream::new(ANY_CONTROL, 0, false))
    }
}

/// Returns whether the other end than `by` sent a piece.
pub(crate) fn is_of_peer(by: Sender, piece: &Piece<'_>) -> bool {
    piece.entry.sender != by
}

/// Returns the other end.
pub(crate) fn other_end(end: Sender) -> Sender {
    match end {
        Sender::Client => Sender::Server,
        Sender::Server => Sender::Client,
    }
}

/// Returns whether a stream lasts as long as the connection (RFC 9114, section 6.2.1; RFC 9204,
/// section 4.2).
fn is_critical(purpose: Purpose) -> bool {
    match purpose {
        Purpose::Control | Purpose::Encoder | Purpose::Decoder => true,
        _ => false,
    }
}

/// Returns the size of the type of a unidirectional stream.
fn size_of_type(bytes: &[u8]) -> usize {
    match first_varint(bytes) {
        Some((_, size)) => size,
        None => 0,
    }
}
