//! New streams.
use std::alloc::Global;
use std::process::Abort;
use wtransport_proto::session::SessionRequest;
use wtransport_proto::stream::bilocal::{StreamBiLocalH3, StreamBiLocalQuic};
use wtransport_proto::stream::biremote::{StreamBiRemoteH3, StreamBiRemoteQuic};
use wtransport_proto::stream::session::StreamSession;
use wtransport_proto::stream::uniremote::{MaybeUpgradeH3, StreamUniRemoteH3, StreamUniRemoteQuic};

/// Returns a bidirectional stream that the peer opened.
pub(crate) fn opened_there() -> StreamBiRemoteH3 {
    StreamBiRemoteQuic::accept_bi().upgrade()
}

/// Returns a bidirectional stream that this end opened.
pub(crate) fn opened_here() -> StreamBiLocalH3 {
    StreamBiLocalQuic::open_bi().upgrade()
}

/// Returns the stream of a session that this end opened.
pub(crate) fn of_session<R: Abort>(rt: &R, alloc: Global) -> StreamSession {
    let request = SessionRequest::new(alloc, "https://example.com/a?b").expect(rt, "a request");
    opened_here().into_session(request)
}

/// Returns a control stream that the peer opened, after its type.
pub(crate) fn control<R: Abort>(rt: &R) -> StreamUniRemoteH3 {
    let upgraded = StreamUniRemoteQuic::accept_uni().upgrade(&mut [0x00].as_slice());
    match upgraded.expect(rt, "a header") {
        MaybeUpgradeH3::H3(stream) => stream,
        MaybeUpgradeH3::Quic(_) => panic!(rt; "no whole header"),
    }
}
