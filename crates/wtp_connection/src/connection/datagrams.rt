//! HTTP datagrams of a connection (RFC 9297, section 2).
ghost use Rattle.std.specs.Prelude.{◌≡◌, Ok, Err, MatchResult, option_map};
ghost use Rattle.wtp_connection.specs.Datagrams.{taken, after_taken, datagram_for as datagram_for_is};

use crate::connection::{Connection, Known};
use crate::fault::Fault;
use wtp_wire::datagram::Datagram;

/// What is to be done with a datagram.
#[derive(Clone, Copy)]
pub enum DatagramFor {
    /// It is the application's.
    Deliver,
    /// Its session is to come. It may be kept for about a round trip, and otherwise is to be dropped
    /// (RFC 9297, section 2.1). Limit how many are kept.
    Early,
    /// It is to be dropped.
    Discard,
    /// It is to be dropped, and the stream with the session's ID is to be reset and stopped with
    /// H3_DATAGRAM_ERROR: its request has no use for datagrams (RFC 9297, section 2).
    EndStream,
}

impl Known {
    /// Returns what is to be done with a datagram, by what is known of its session.
    pub fn datagram_for(self) -> DatagramFor
        ensures { result ≡ datagram_for_is self }
    {
        match self {
            Known::Coming => DatagramFor::Early,
            Known::Open => DatagramFor::Deliver,
            Known::Over | Known::Refused | Known::Impossible => DatagramFor::Discard,
            Known::Other => DatagramFor::EndStream,
        }
    }
}

impl Connection {
    /// Returns the session of a datagram and its payload, which may be empty. `bytes` is the payload
    /// of a QUIC datagram. [`Known::datagram_for`] says what is to be done with it.
    ///
    /// Returns `None`, and the datagram is to be dropped, if the own SETTINGS do not enable datagrams
    /// ([`Endpoint::datagrams`](wtp_frames::endpoint::Endpoint)), and after an error of the
    /// connection.
    ///
    /// # Errors
    ///
    /// `Datagram`, which ends the connection, if it does not begin with a complete number, or if that
    /// number is 2^60 or more.
    pub fn datagram<'a>(&mut self, bytes: &'a [u8]) -> Result<Option<(u64, &'a [u8])>, Fault>
        ensures taken { MatchResult result
            (λ d. taken self.old bytes.now ≡ Ok (option_map (λ p. (p.0, p.1.now)) d))
            (λ f. taken self.old bytes.now ≡ Err f) }
        ensures connection { self.new ≡ after_taken self.old (taken self.old bytes.now) }
    {
        if self.over || !self.endpoint.datagrams {
            return Ok(None);
        }
        match Datagram::read(bytes) {
            Ok(datagram) => {
                let session = datagram.qstream_id().into_session_id();
                Ok(Some((session.into_u64(), datagram.payload())))
            }
            Err(_) => {
                self.close(Fault::Datagram);
                Err(Fault::Datagram)
            }
        }
    }
}
