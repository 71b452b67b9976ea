//! The rules of errors, in words that cite the sections of the standards.

use std::alloc::{AllocError, Global};
use wtp_connection::fault::Fault as StreamsFault;
use wtp_dynamic::error::{EncoderStreamError, SectionError};
use wtp_frames::fault::Fault as StreamFault;
use wtp_messages::malformed::Malformed;
use wtp_webtransport::fault::Fault;

/// Returns the rule that the peer broke, with its section.
///
/// Returns [`AllocError`] if allocation fails.
pub(crate) fn fault_words(alloc: Global, fault: Fault) -> Result<String, AllocError> {
    match fault {
        Fault::Streams(fault) => String::from_str(alloc, streams_words(fault)),
        Fault::Section(error) => {
            let section = section_of(SectionError::from(error));
            format!(in alloc; "a field section: {error} (RFC 9204, section {section})")
        }
        Fault::TableSection(error) => {
            let section = section_of(error);
            format!(in alloc; "a field section: {error} (RFC 9204, section {section})")
        }
        Fault::Instructions(error) => {
            let section = instruction_section(error);
            format!(in alloc;
                "an instruction of the encoder stream: {error} (RFC 9204, section {section})"
            )
        }
        Fault::SectionPrefix => String::from_str(
            alloc,
            "a field section refers to a dynamic table, and none is allowed (RFC 9204, sections 4.5.1.1 and 4.5.1.2)",
        ),
        Fault::Capsule => String::from_str(
            alloc,
            "a capsule of the session is invalid or cut, or follows its close (RFC 9297, section 3.3; draft-ietf-webtrans-http3-02, section 5)",
        ),
        Fault::Rejected => String::from_str(
            alloc,
            "the request is not below the ID of the GOAWAY that this end sent (RFC 9114, section 5.2)",
        ),
    }
}

/// Returns the rule that a malformed message breaks, with its section.
///
/// Returns [`AllocError`] if allocation fails.
pub(crate) fn malformed_words(alloc: Global, rule: Malformed) -> Result<String, AllocError> {
    let section = malformed_section(rule);
    format!(in alloc; "{rule} ({section})")
}

/// Returns the rule of an error of what streams are for, of settings, and of datagrams.
fn streams_words(fault: StreamsFault) -> &'static str {
    match fault {
        StreamsFault::Stream(fault) => stream_words(fault),
        StreamsFault::Settings => "a setting is invalid (RFC 9114, sections 7.2.4 and 7.2.4.1)",
        StreamsFault::Capacity => {
            "the capacity of the dynamic table is not the one before 0-RTT (RFC 9204, section 3.2.3)"
        }
        StreamsFault::EncoderStream => {
            "an instruction of the encoder stream is for a dynamic table, and none is allowed (RFC 9204, sections 3.2.3 and 4.3)"
        }
        StreamsFault::DecoderStream => {
            "an instruction of the decoder stream is about entries that were not inserted, or its number is too large (RFC 9204, sections 4.1.1 and 4.4)"
        }
        StreamsFault::Datagram => {
            "a datagram does not begin with a quarter stream ID below 2^60 (RFC 9297, section 2.1)"
        }
    }
}

/// Returns the rule of an error of a stream.
fn stream_words(fault: StreamFault) -> &'static str {
    match fault {
        StreamFault::ClosedCriticalStream => {
            "the control stream or one of QPACK ended (RFC 9114, section 6.2.1; RFC 9204, section 4.2)"
        }
        StreamFault::FrameUnexpected =>
            "a frame may not come here (RFC 9114, sections 4.1 and 7.2)",
        StreamFault::Frame => {
            "a frame has an invalid layout or size, or is cut (RFC 9114, section 7.1)"
        }
        StreamFault::ExcessiveLoad => {
            "SETTINGS are too long, or too many frames without content follow one another (RFC 9114, section 10.5)"
        }
        StreamFault::TooManyInterim => {
            "more than 64 interim responses came before the final response (RFC 9114, sections 4.1 and 10.5)"
        }
        StreamFault::Id => {
            "an ID is invalid here (RFC 9114, sections 5.2, 7.2.3, 7.2.5 and 7.2.7; draft-ietf-webtrans-http3-02, section 4)"
        }
        StreamFault::MissingSettings => {
            "the control stream does not begin with SETTINGS (RFC 9114, section 6.2.1)"
        }
        _ => ending_words(fault),
    }
}

/// Returns the same for an error of how a stream begins or ends, and of the streams of sessions.
fn ending_words(fault: StreamFault) -> &'static str {
    match fault {
        StreamFault::RequestIncomplete => {
            "the stream ended before the header section of the request (RFC 9114, section 4.1)"
        }
        StreamFault::Message => {
            "the stream ended before the header section of the response (RFC 9114, sections 4.1 and 4.1.2)"
        }
        StreamFault::StreamCreation => {
            "the peer may not open this stream (RFC 9114, sections 6.1, 6.2.1 and 6.2.2)"
        }
        StreamFault::BufferedStreamRejected => {
            "the session of the stream was refused or not asked for, or 16 other streams wait for their sessions already (draft-ietf-webtrans-http3-02, section 4.5)"
        }
        _ => "the session of the stream is over (draft-ietf-webtrans-http3-02, section 5)",
    }
}

/// Returns the section of RFC 9204 that a field section breaks.
fn section_of(error: SectionError) -> &'static str {
    match error {
        SectionError::IntegerOverflow => "4.1.1",
        SectionError::InvalidString => "4.1.2",
        SectionError::IndexNotFound => "3.1",
        SectionError::EntryNotFound => "2.2.3",
        SectionError::InvalidInsertCount => "4.5.1.1",
        SectionError::NegativeBase => "4.5.1.2",
        SectionError::TooManyBlocked => "2.1.2",
        SectionError::UnexpectedEnd | SectionError::Memory => "4.5",
    }
}

/// Returns the section of RFC 9204 that an instruction of an encoder stream breaks.
fn instruction_section(error: EncoderStreamError) -> &'static str {
    match error {
        EncoderStreamError::IntegerOverflow | EncoderStreamError::TooManyInsertions => "4.1.1",
        EncoderStreamError::InstructionTooLong => "7.4",
        EncoderStreamError::InvalidString => "4.1.2",
        EncoderStreamError::IndexNotFound => "3.1",
        EncoderStreamError::CapacityAboveLimit => "4.3.1",
        EncoderStreamError::EntryTooLarge => "3.2.2",
        EncoderStreamError::EntryNotFound => "2.2.3",
        EncoderStreamError::Memory => "4.3",
    }
}

/// Returns the section of the rule that a malformed message breaks.
fn malformed_section(rule: Malformed) -> &'static str {
    match rule {
        Malformed::InvalidName => "RFC 9114, section 4.2; RFC 9110, section 5.1",
        Malformed::InvalidValue => "RFC 9110, section 5.5; RFC 9114, section 10.3",
        Malformed::ConnectionField | Malformed::InvalidTe => "RFC 9114, section 4.2",
        Malformed::UnknownPseudoHeader
        | Malformed::LatePseudoHeader
        | Malformed::RepeatedPseudoHeader => "RFC 9114, section 4.3",
        Malformed::InvalidContentLength => "RFC 9110, section 8.6",
        Malformed::MissingMethod | Malformed::InvalidPath => "RFC 9114, section 4.3.1",
        Malformed::MissingScheme | Malformed::MissingPath => {
            "RFC 9114, section 4.3.1; RFC 8441, section 4"
        }
        Malformed::InvalidMethod => "RFC 9110, section 9.1",
        Malformed::InvalidScheme => {
            "RFC 3986, section 3.1; draft-ietf-webtrans-http3-02, section 3.3"
        }
        Malformed::MissingAuthority => "RFC 9114, sections 4.3.1 and 4.4",
        Malformed::InvalidAuthority => {
            "RFC 9114, sections 4.3.1 and 4.4; RFC 9110, section 7.2; RFC 3986, section 3.2"
        }
        Malformed::ConnectWithTarget => "RFC 9114, section 4.4",
        Malformed::UnexpectedProtocol => "RFC 8441, section 4; RFC 9220, section 3",
        Malformed::InvalidProtocol => "RFC 8441, section 4",
        _ => response_section(rule),
    }
}

/// Returns the same for a rule of responses and of content.
fn response_section(rule: Malformed) -> &'static str {
    match rule {
        Malformed::ContentField | Malformed::UnexpectedStatus => "RFC 9297, section 3.2",
        Malformed::MissingStatus => "RFC 9114, section 4.3.2",
        Malformed::InvalidStatus => "RFC 9110, section 15; RFC 9114, section 4.5",
        Malformed::MissingHead => "RFC 9114, section 4.1",
        _ => "RFC 9114, section 4.1.2",
    }
}
