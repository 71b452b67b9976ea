//! Lists the request for a session.
ghost use Rattle.std.specs.Prelude.{◌≡◌, ◌⊎◌, IfOk};
ghost use Rattle.wt_listings.specs.Listing.{HasText};
ghost use Rattle.wt_listings.specs.Request.{fields_listing, result_listing, request_listing};
ghost use Rattle.wtransport_proto.specs.Field.{fields_of};
ghost use Rattle.wtransport_proto.specs.Run.{Open};
ghost use Rattle.wtransport_proto.specs.SessionRequest.{request_in};

use crate::listing::Listing;
use crate::listing::lines::Lines;
use std::alloc::{AllocError, Global};
use std::collections::BTreeMap;
use wtransport_proto::bytes::BufferReader;
use wtransport_proto::error::Refused;
use wtransport_proto::frame::Frame;
use wtransport_proto::session::request_of_frame;
use wtransport_proto::stream::biremote::StreamBiRemoteQuic;

/// Lists the fields of a session request, in byte order of their names. The request is the first
/// frame of a stream that the peer opened. The last line gives the number of bytes after that
/// frame, or the number of bytes left if there is no frame, or the error code.
///
/// Returns [`AllocError`] if allocation fails.
pub fn list_request(alloc: Global, input: &[u8]) -> Result<Listing, AllocError>
    ensures listing { IfOk result (λ l. HasText l (request_listing input.now)) }
    ensures status { IfOk result (λ l. (l.status ≡ 0) ⊎ (l.status ≡ 2)) }
{
    let mut stream = StreamBiRemoteQuic::accept_bi().upgrade();
    let mut reader = BufferReader::new(input);
    match stream.read_frame_from_buffer(&mut reader) {
        Ok(Some(frame)) => list_frame(alloc, &frame, reader.capacity()),
        Ok(None) => Lines::new(alloc).end(reader.capacity()),
        Err(code) => Lines::new(alloc).fault(code),
    }
}

/// Returns the listing of the request in a frame that is followed by `rest` bytes.
fn list_frame(alloc: Global, frame: &Frame<'_>, rest: usize) -> Result<Listing, AllocError>
    ensures listing { IfOk result (λ l. HasText l (result_listing (request_in frame.now) rest)) }
    ensures status { IfOk result (λ l. (l.status ≡ 0) ⊎ (l.status ≡ 2)) }
{
    match request_of_frame(alloc, frame) {
        Ok(request) => list_fields(alloc, request.headers().as_ref(), rest),
        Err(Refused::Code(code)) => Lines::new(alloc).fault(code),
        Err(Refused::Memory) => Err(AllocError),
    }
}

/// Returns the listing of a header map whose frame is followed by `rest` bytes.
fn list_fields(
    alloc: Global,
    fields: &BTreeMap<String, String>,
    rest: usize,
) -> Result<Listing, AllocError>
    ensures { IfOk result (λ l. HasText l (fields_listing (fields_of fields.now) (Open rest))) }
{
    let mut lines = Lines::new(alloc);
    for (name, value) in fields {
        lines.field(name.as_str(), value.as_str())?;
    }
    lines.end(rest)
}
