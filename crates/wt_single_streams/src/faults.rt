//! Invalid inputs, and what an endpoint closes after each.
ghost use Rattle.std.specs.Prelude.{◌≡◌};
ghost use Rattle.wtransport_proto.specs.Datagram.{datagram_in};
ghost use Rattle.wt_single_streams.specs.Closing.{datagram_closing};

use crate::closing::{Closing, after_code, after_fault, after_header_fault};
use std::alloc::Global;
use std::io;
use wtransport_proto::bytes::Stepped;
use wtransport_proto::datagram::Datagram;
use wtransport_proto::error::Refused;
use wtransport_proto::frame::{Frame, FrameReading};
use wtransport_proto::session::request_of_frame;
use wtransport_proto::stream::BiAccepted;
use wtransport_proto::stream::biremote::StreamBiRemoteQuic;
use wtransport_proto::stream::uniremote::StreamUniRemoteQuic;

/// Bidirectional streams with an error, and a description of each.
static STREAMS: [(&[u8], &str); 7] = [
    (b"", "an empty stream"),
    (b"\x00\x00", "DATA before HEADERS"),
    (b"\x04\x00", "SETTINGS on a request stream"),
    (b"\x40\x41\x03", "an invalid session ID"),
    (b"\x01\x50\x01", "a payload of 4097 bytes"),
    (b"\x01\x05\x00", "an end inside a frame"),
    (b"\x01\x02\x00\x00", "a request without fields"),
];

/// Prints what is closed after each invalid input.
pub fn print_each<R: Print>(rt: &R, alloc: Global) -> io::Result<()> {
    for (bytes, fault) in &STREAMS {
        print_one(rt, fault, bidirectional(alloc, bytes))?;
    }
    print_one(rt, "an unknown stream type", unidirectional(b"\x07"))?;
    print_one(rt, "an end inside a stream header", unidirectional(b"\x40"))?;
    print_one(rt, "an empty datagram", datagram(b""))
}

/// Prints an error and what is closed after it.
fn print_one<R: Print>(rt: &R, fault: &str, closing: Closing) -> io::Result<()> {
    println!(rt; "  {fault}: {closing:?}")
}

/// Returns what is closed after a datagram.
fn datagram(bytes: &[u8]) -> Closing
    ensures { result ≡ datagram_closing (datagram_in bytes.now) }
{
    match Datagram::read(bytes) {
        Ok(_) => Closing::Nothing,
        Err(code) => after_code(code),
    }
}

/// Returns what is closed after the first frame of a bidirectional stream.
fn bidirectional(alloc: Global, bytes: &[u8]) -> Closing {
    match accept(alloc, bytes) {
        BiAccepted::Failed(_, fault) => after_fault(&fault),
        BiAccepted::Request(_, _, frame) => after_request(alloc, &frame),
        _ => Closing::Nothing,
    }
}

/// Accepts a bidirectional stream with these bytes.
fn accept(alloc: Global, bytes: &[u8]) -> BiAccepted {
    let stream = StreamBiRemoteQuic::accept_bi().upgrade();
    let mut source = bytes;
    stream
        .accept_async(FrameReading::new(alloc))
        .poll(&mut source)
}

/// Returns what is closed after a request.
fn after_request(alloc: Global, frame: &Frame<'_>) -> Closing {
    match request_of_frame(alloc, frame) {
        Err(Refused::Code(code)) => after_code(code),
        Ok(_) | Err(Refused::Memory) => Closing::Nothing,
    }
}

/// Returns what is closed after the header of a unidirectional stream.
fn unidirectional(bytes: &[u8]) -> Closing {
    let accepting = StreamUniRemoteQuic::accept_uni().upgrade_async();
    let mut source = bytes;
    match accepting.poll(&mut source) {
        Stepped::Failed(_, fault) => after_header_fault(&fault),
        _ => Closing::Nothing,
    }
}
