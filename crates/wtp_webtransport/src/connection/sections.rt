//! The field sections of messages: where they are decoded, with the dynamic table if they need it.
ghost use Rattle.std.specs.Prelude.{◌≡◌, ◌≤◌, length};
ghost use Rattle.wtp_webtransport.specs.Events.{told_of};
ghost use Rattle.wtp_webtransport.specs.Receiving.{UnreadGives, SectionGives, DecodedGives, TableGives, OverGives, DecodedBy, HasRead, lacking_in, read_after};

use crate::connection::Connection;
use crate::connection::messages::{Span, wait};
use crate::event::{Event, Received};
use crate::fault::Fault;
use crate::fields::{Fields, names_table};
use crate::stream::{Delay, Part, Stream, Unread};
use crate::unacknowledged::Unacknowledged;
use std::alloc::Global;
use wtp_dynamic_fields::section::{Decoded, TableSectionError, decode_with_table};
use wtp_fields::fields::{FieldList, FieldSectionError};
use wtp_frames::frame_type::FrameType;
use wtp_messages::message::Message;

impl Connection {
    // Reads a field section of this size that could not be read before.
    pub(super) fn read_again<'a>(
        &mut self,
        stream: &mut Stream,
        size: usize,
        bytes: &'a [u8],
        fields: &Fields,
    ) -> Received<'a>
        ensures { UnreadGives fields.now.limit self.old stream.old size bytes.now
            (result.consumed, told_of result.event, self.new, stream.new) }
    {
        if bytes.len() < size {
            return Received {
                consumed: 0,
                event: Event::More,
            };
        }
        stream.unread = Unread::Nothing;
        self.section(stream, 0, size, bytes, fields)
    }

    // Returns the field section whose encoding is from `start` to `end`.
    pub(super) fn section<'a>(
        &mut self,
        stream: &mut Stream,
        start: usize,
        end: usize,
        bytes: &'a [u8],
        fields: &Fields,
    ) -> Received<'a>
        requires { (start ≤ end) × (end ≤ length bytes.now) }
        ensures { SectionGives fields.now.limit self.old stream.old start end bytes.now
            (result.consumed, told_of result.event, self.new, stream.new) }
    {
        match stream.part {
            Part::Head(message) | Part::Body(message) => {
                let span = Span {
                    start,
                    end,
                    len: bytes.len(),
                };
                self.decode(stream, message, span, bytes, fields)
            }
            _ => Received {
                consumed: end,
                event: Event::Frame(FrameType::Headers, &bytes[start..end]),
            },
        }
    }

    // Decodes the next field section of a message.
    fn decode<'a>(
        &mut self,
        stream: &mut Stream,
        message: Message,
        span: Span,
        bytes: &'a [u8],
        fields: &Fields,
    ) -> Received<'a>
        requires { (span.start ≤ span.end) × (span.end ≤ length bytes.now) }
        ensures { DecodedGives fields.now.limit self.old stream.old message span bytes.now
            (result.consumed, told_of result.event, self.new, stream.new) }
    {
        let section = &bytes[span.start..span.end];
        if names_table(section) {
            return self.decode_with(stream, message, span, bytes, fields);
        }
        match FieldList::decode(fields.alloc, section, fields.limit) {
            Ok(list) => self.take(stream, message, list, span, fields.alloc),
            Err(FieldSectionError::TooLarge) => self.too_large(stream, None, span.end),
            Err(FieldSectionError::Memory) => no_memory(stream, span),
            Err(FieldSectionError::Decoding(fault)) => {
                self.fail(stream, Fault::Section(fault), span.len)
            }
        }
    }

    // Decodes the next field section of a message with the dynamic table, if there is one.
    #[tactic(auto, using(crate::proofs::TableLemmas::table_given, crate::proofs::TableLemmas::table_refused))]
    fn decode_with<'a>(
        &mut self,
        stream: &mut Stream,
        message: Message,
        span: Span,
        bytes: &'a [u8],
        fields: &Fields,
    ) -> Received<'a>
        requires { (span.start ≤ span.end) × (span.end ≤ length bytes.now) }
        ensures { TableGives self.old.decoder fields.now.limit self.old stream.old message span bytes.now
            (result.consumed, told_of result.event, self.new, stream.new) }
    {
        match self.decoded(&bytes[span.start..span.end], fields) {
            None => self.fail(stream, Fault::SectionPrefix, span.len),
            Some(decoded) => self.take_decoded(stream, message, decoded, span, fields.alloc),
        }
    }

    // Decodes a section with the dynamic table, if there is one.
    fn decoded(&self, section: &[u8], fields: &Fields) -> Option<Result<Decoded, TableSectionError>>
        ensures { DecodedBy self.now.decoder fields.now.limit section.now result }
    {
        match &self.decoder {
            None => None,
            Some(decoder) => Some(decode_with_table(
                fields.alloc,
                decoder.table(),
                section,
                fields.limit,
            )),
        }
    }

    // Takes what was decoded with the dynamic table.
    fn take_decoded<'a>(
        &mut self,
        stream: &mut Stream,
        message: Message,
        decoded: Result<Decoded, TableSectionError>,
        span: Span,
        alloc: Global,
    ) -> Received<'a>
        requires { span.start ≤ span.end }
        ensures { OverGives self.old stream.old message span decoded
            (result.consumed, told_of result.event, self.new, stream.new) }
    {
        match decoded {
            Ok(Decoded::Fields(list, required)) => {
                self.take_read(stream, message, list, required, span, alloc)
            }
            Ok(Decoded::Blocked(required)) => wait(stream, span, Delay::Table(required)),
            Err(TableSectionError::TooLarge) => self.too_large(stream, None, span.end),
            Err(TableSectionError::Memory) => no_memory(stream, span),
            Err(TableSectionError::Section(fault)) => {
                self.fail(stream, Fault::TableSection(fault), span.len)
            }
        }
    }

    // Takes the next fields of a message, which needed so many insertions.
    fn take_read<'a>(
        &mut self,
        stream: &mut Stream,
        message: Message,
        list: FieldList,
        required: u64,
        span: Span,
        alloc: Global,
    ) -> Received<'a>
        ensures { HasRead self.old stream.old message span list required
            (result.consumed, told_of result.event, self.new, stream.new) }
    {
        let received = self.take(stream, message, list, span, alloc);
        self.note_read(&received.event, required);
        received
    }

    // Notes that a section was read that needed so many insertions, unless it waits.
    fn note_read(&mut self, event: &Event<'_>, required: u64)
        ensures { self.new ≡ read_after (told_of event.now) required self.old }
    {
        match event {
            Event::Waits(_) => {}
            _ => self.read = Some(Unacknowledged::new(required)),
        }
    }
}

// Returns that there was no memory for a field section.
fn no_memory<'a>(stream: &mut Stream, span: Span) -> Received<'a>
    requires { span.start ≤ span.end }
    ensures { (result.consumed, told_of result.event, stream.new) ≡ lacking_in stream.old span }
{
    stream.unread = Unread::Section(span.end - span.start);
    Received {
        consumed: span.start,
        event: Event::NoMemory,
    }
}
