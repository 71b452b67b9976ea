//! Debug output of streams, upgrades and their results.
use crate::opened::{opened_here, opened_there, session_4};
use crate::same::assert_same;
use std::fmt::Debug;
use std::process::Abort;
use wtransport_proto::bytes::{IoReadError as Fault, Polled};
use wtransport_proto::error::ErrorCode;
use wtransport_proto::frame::{FrameOwned, FrameReading};
use wtransport_proto::stream::IoReadError;
use wtransport_proto::stream::bilocal::StreamBiLocalQuic;
use wtransport_proto::stream::unilocal::StreamUniLocalQuic;
use wtransport_proto::stream::uniremote::StreamUniRemoteQuic;

/// Asserts the debug output of a value.
fn check_printed<R: Abort + AllocGlobal, T: Debug>(rt: &R, value: &T, wanted: &str) {
    let text = format!(in rt.alloc(); "{value:?}").expect(rt, "memory");
    assert_same(rt, text.as_str(), wanted, "printed");
}

#[test]
fn streams_are_printed(rt: HostRuntime) {
    check_printed(
        &rt,
        &StreamBiLocalQuic::open_bi(),
        "Stream { kind: BiLocal(Bi, Local), stage: Quic }",
    );
    check_printed(
        &rt,
        &opened_here(),
        "Stream { kind: BiLocal(Bi, Local), stage: H3 { header: (), first_frame_done: false } }",
    );
    check_printed(
        &rt,
        &opened_there().upgrade(session_4(&rt)),
        "Stream { kind: BiRemote(Bi, Remote), stage: WT { session_id: 4 } }",
    );
    check_printed(
        &rt,
        &StreamUniLocalQuic::open_uni(),
        "Stream { kind: UniLocal(Uni, Local), stage: Quic }",
    );
}

#[test]
fn upgrades_are_printed(rt: HostRuntime) {
    let mut none = [].as_slice();
    check_printed(
        &rt,
        &StreamUniRemoteQuic::accept_uni()
            .upgrade(&mut none)
            .expect(&rt, "no fault"),
        "Quic(Stream { kind: UniRemote(Uni, Remote), stage: Quic })",
    );
    check_printed(
        &rt,
        &StreamUniRemoteQuic::accept_uni().upgrade_async(),
        "UniAccepting { stream: Stream { kind: UniRemote(Uni, Remote), stage: Quic }, \
         reading: HeaderReading { bytes: 0, .. } }",
    );
}

#[test]
fn an_answer_is_printed(rt: HostRuntime) {
    let mut stream = opened_there();
    let mut reading = FrameReading::new(rt.alloc());
    let mut source = b"\x04\x00".as_slice();
    let answer: Polled<Result<FrameOwned, IoReadError>> = stream.read_frame_async(
        &mut reading,
        &mut source,
    );
    check_printed(
        &rt,
        &answer,
        "Ready(Err(H3(FrameUnexpectedError (code: 261))))",
    );
}

#[test]
fn faults_of_a_stream_are_printed(rt: HostRuntime) {
    let code = IoReadError::H3(ErrorCode::FrameUnexpected);
    let fault = IoReadError::IO(Fault::UnexpectedFin);
    let text = format!(in rt.alloc(); "{code}; {fault}").expect(&rt, "memory");
    assert_same(
        &rt,
        text.as_str(),
        "FrameUnexpectedError; read operation failed because EOF reached after first byte",
        "printed",
    );
}
