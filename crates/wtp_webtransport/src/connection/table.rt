//! The dynamic table: the encoder stream of the peer, and what is due on the own decoder stream (RFC
//! 9204, sections 2.1, 2.2, 4.3 and 4.4).
ghost use Rattle.std.specs.Prelude.{◌≡◌, ◌≢◌, false, Some, None, MatchBool, MatchOption};
ghost use Rattle.wtp_webtransport.specs.Events.{told_of};
ghost use Rattle.wtp_webtransport.specs.Tables.{with_decoder, instructed, CallBy, Says, due_read, after_read, due_inserts, after_inserts, due_cancel, after_cancel, inserts_of, too_many_blocked as too_many_blocked_is};

use crate::connection::Connection;
use crate::event::{Event, Received};
use crate::fault::Fault;
use crate::stream::Stream;
use crate::unacknowledged::{Unacknowledged, due_on, still_due};
use std::alloc::AllocError;
use wtp_connection::stream::Stream as Frames;
use wtp_dynamic::error::SectionError;
use wtp_dynamic_decoder::decoder::QpackDecoder;

impl Connection {
    /// Says that the own SETTINGS allow the peer a dynamic table, by SETTINGS_QPACK_MAX_TABLE_CAPACITY and
    /// SETTINGS_QPACK_BLOCKED_STREAMS: `decoder` has these limits (RFC 9204, sections 3.2.3 and 5). Call it
    /// before the first byte is received.
    ///
    /// Sections that refer to the table are read with it then. A stream whose section needs more
    /// insertions than there were [waits](crate::event::Waits::Table). How many streams wait is the
    /// caller's to count: for one more than the own SETTINGS allow, call
    /// [`too_many_blocked`](Self::too_many_blocked).
    ///
    /// The peer is to be told, on the own decoder stream, of each section that was read
    /// ([`acknowledge`](Self::acknowledge)), of insertions ([`increment`](Self::increment)), and of each
    /// stream that is not read to its end ([`cancel`](Self::cancel)).
    pub fn allow_table(&mut self, decoder: QpackDecoder)
        ensures { self.new ≡ with_decoder self.old decoder }
    {
        self.decoder = Some(decoder);
    }

    /// Returns the dynamic table, if the own SETTINGS allow one.
    pub fn table(&self) -> Option<&QpackDecoder>
        ensures { MatchOption result (self.now.decoder ≡ None) (λ d. self.now.decoder ≡ Some d.now) }
    {
        self.decoder.as_ref()
    }

    /// Returns the field section that is to be [acknowledged](Self::acknowledge), if one is.
    pub fn unacknowledged(&self) -> Option<Unacknowledged>
        ensures { result ≡ self.now.read }
    {
        self.read
    }

    /// Gives a connection whose [words](crate::connection::words) were kept its dynamic table, and what
    /// [`unacknowledged`](Self::unacknowledged) returned.
    pub fn restore_table(&mut self, decoder: QpackDecoder, unacknowledged: Option<Unacknowledged>)
        ensures { self.new ≡ record self.old { decoder = Some decoder; read = unacknowledged } }
    {
        self.decoder = Some(decoder);
        self.read = unacknowledged;
    }

    /// Returns how many entries the peer inserted into the dynamic table. A stream that waits for no more
    /// than these is to be read again.
    pub fn insert_count(&self) -> u64
        ensures { result ≡ inserts_of self.now.decoder }
    {
        match &self.decoder {
            None => 0,
            Some(decoder) => decoder.insert_count(),
        }
    }

    /// Appends to `out`, for the own decoder stream, the acknowledgment of the field section that the last
    /// call of [`receive`](Self::receive) read, if it was read with the dynamic table (RFC 9204, section
    /// 4.4.1). `id` is the ID of the stream of that call. Call it after each call of `receive`, whatever
    /// the event is, and before the next one: a message that is malformed has a section that was read, too.
    /// It writes once, and nothing if this stream was [cancelled](Self::cancel) since.
    ///
    /// # Errors
    ///
    /// If allocation failed: nothing changed, and the call can be repeated, before the next call of
    /// `receive`.
    pub fn acknowledge(&mut self, id: u64, out: &mut Vec<u8>) -> Result<(), AllocError>
        ensures { Says (due_read self.old.decoder self.old.read id)
            (after_read self.old.decoder self.old.read id self.old) self.old self.new
            out.old.items out.new.items result }
    {
        let due = due_on(self.read, id);
        match &mut self.decoder {
            None => Ok(()),
            Some(decoder) => {
                let Some(required) = due else {
                    self.read = None;
                    return Ok(());
                };
                let count = decoder.insert_count();
                match decoder.acknowledge(id, required.min(count), out) {
                    Ok(()) => {
                        self.read = None;
                        Ok(())
                    }
                    Err(error) => Err(error),
                }
            }
        }
    }

    /// Appends to `out`, for the own decoder stream, how many insertions the peer was not told of yet, if
    /// there are any (RFC 9204, section 4.4.3). Acknowledgments tell it of those that sections needed;
    /// when to tell it of others is the caller's choice: once [`Event::Inserted`] came, for example.
    ///
    /// # Errors
    ///
    /// If allocation failed: nothing changed, and the call can be repeated.
    pub fn increment(&mut self, out: &mut Vec<u8>) -> Result<(), AllocError>
        ensures { Says (due_inserts self.old.decoder) (after_inserts self.old.decoder self.old)
            self.old self.new out.old.items out.new.items result }
    {
        match &mut self.decoder {
            None => Ok(()),
            Some(decoder) => decoder.increment(out),
        }
    }

    /// Appends to `out`, for the own decoder stream, the cancellation of the stream with this ID, if the own
    /// SETTINGS allow a dynamic table (RFC 9204, section 4.4.2). It writes at each call: call it once, after
    /// [`acknowledge`](Self::acknowledge), for each stream of a message whose reading ends before `End`. That
    /// is after `Reset`, `Malformed`, `StreamError` and `TooLarge`, also of trailers, and where the stream is
    /// [abandoned](Self::abandon) or [rejected](Self::reject).
    ///
    /// The section of this stream is not to be acknowledged any more. That of another stream still is; but
    /// after the cancellations of two streams, before it is acknowledged, none is.
    ///
    /// # Errors
    ///
    /// If allocation failed: nothing changed, and the call can be repeated.
    pub fn cancel(&mut self, id: u64, out: &mut Vec<u8>) -> Result<(), AllocError>
        ensures { Says (due_cancel self.old.decoder id) (after_cancel self.old.decoder id self.old)
            self.old self.new out.old.items out.new.items result }
    {
        match &mut self.decoder {
            None => Ok(()),
            Some(decoder) => match decoder.cancel(id, out) {
                Ok(()) => {
                    self.read = still_due(self.read, id);
                    Ok(())
                }
                Err(error) => Err(error),
            },
        }
    }

    /// Says that more streams wait for the dynamic table than the own SETTINGS allow.
    ///
    /// Returns `ConnectionError`, with the code QPACK_DECOMPRESSION_FAILED (RFC 9204, section 2.1.2). After
    /// an error of the connection it returns `More`, and nothing changes.
    pub fn too_many_blocked(&mut self) -> Event<'static>
        ensures { (told_of result, self.new) ≡ too_many_blocked_is self.old }
    {
        if self.over {
            return Event::More;
        }
        self.close(Fault::TableSection(SectionError::TooManyBlocked))
    }

    // Returns whether bytes of a stream are instructions for the dynamic table.
    pub(super) fn reads_instructions(&self, stream: &Stream, bytes: &[u8]) -> bool
        ensures { MatchBool result (instructed self.now stream.now bytes.now ≢ None)
            (instructed self.now stream.now bytes.now ≡ None) }
    {
        match (&stream.frames, &self.decoder) {
            (Frames::Encoder, Some(_)) => !self.over && !bytes.is_empty(),
            _ => false,
        }
    }

    // Reads instructions of the encoder stream.
    pub(super) fn instructions<'a>(&mut self, stream: &mut Stream, bytes: &'a [u8]) -> Received<'a>
        requires { instructed self.old stream.old bytes.now ≢ None }
        ensures { CallBy (instructed self.old stream.old bytes.now) 0 self.old stream.old bytes.now false
            (result.consumed, told_of result.event, self.new, stream.new) }
    {
        let read = match &mut self.decoder {
            None => Ok(0),
            Some(decoder) => match decoder.read_encoder_stream(bytes) {
                Ok(()) => Ok(decoder.insert_count()),
                Err(fault) => Err(fault),
            },
        };
        match read {
            Ok(count) => Received {
                consumed: bytes.len(),
                event: Event::Inserted(count),
            },
            Err(fault) => self.fail(stream, Fault::Instructions(fault), bytes.len()),
        }
    }
}
