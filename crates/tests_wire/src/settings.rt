//! Worked rows of settings, and the effect of failed allocations.
use crate::frames::put;
use crate::same::assert_same;
use crate::texts::has_text;
use std::alloc::{AllocError, Global};
use std::borrow::CowSlice;
use std::process::Abort;
use wtp_core::bytes::{BufferWriter, PutError};
use wtp_core::error::{ErrorCode, Refused};
use wtp_core::varint::VarInt;
use wtp_wire::frame::{Frame, FrameOwned, GenerateError};
use wtp_wire::settings::{SettingId, Settings};

/// Reads a SETTINGS payload.
fn read<R: Abort + AllocGlobal>(rt: &R, payload: &[u8]) -> Result<Settings, Refused> {
    assert!(rt; payload.len() < 64);
    let frame = Frame::new_settings(CowSlice::Borrowed(payload));
    Settings::with_frame(rt.alloc(), &frame)
}

/// Reads a SETTINGS payload, again if allocation failed.
pub fn answer<R: Abort + AllocGlobal>(rt: &R, payload: &[u8]) -> Result<Settings, Refused> {
    match read(rt, payload) {
        Err(Refused::Memory) => read(rt, payload),
        answer => answer,
    }
}

/// Returns settings from all builder steps but one, not in the order of their identifiers.
fn steps(alloc: Global) -> Result<Settings, AllocError> {
    let builder = Settings::builder(alloc)
        .qpack_blocked_streams(VarInt::from_u32(1))?
        .qpack_max_table_capacity(VarInt::from_u32(2))?
        .enable_h3_datagrams()?
        .enable_webtransport()?
        .webtransport_max_sessions(VarInt::from_u32(3))?;
    Ok(builder.build())
}

/// Returns settings from all builder steps but one, built again if allocation failed.
fn build(alloc: Global) -> Result<Settings, AllocError> {
    match steps(alloc) {
        Ok(settings) => Ok(settings),
        Err(_) => steps(alloc),
    }
}

/// Returns settings from the datagram step.
fn datagrams_step(alloc: Global) -> Result<Settings, AllocError> {
    Ok(Settings::builder(alloc).enable_h3_datagrams()?.build())
}

/// Returns settings from the datagram step, built again if allocation failed.
fn datagrams(alloc: Global) -> Result<Settings, AllocError> {
    match datagrams_step(alloc) {
        Ok(settings) => Ok(settings),
        Err(_) => datagrams_step(alloc),
    }
}

/// Returns settings from the step for the connect protocol.
fn connect_step(alloc: Global) -> Result<Settings, AllocError> {
    Ok(Settings::builder(alloc).enable_connect_protocol()?.build())
}

/// Returns settings from the step for the connect protocol, built again if allocation failed.
fn connect(alloc: Global) -> Result<Settings, AllocError> {
    match connect_step(alloc) {
        Ok(settings) => Ok(settings),
        Err(_) => connect_step(alloc),
    }
}

/// Returns the frame of the settings.
fn frame_once(alloc: Global, settings: &Settings) -> Result<FrameOwned, GenerateError> {
    settings.generate_frame(alloc)
}

/// Returns the frame of the settings, built again if allocation failed.
pub fn frame_of(alloc: Global, settings: &Settings) -> Result<FrameOwned, GenerateError> {
    match frame_once(alloc, settings) {
        Err(GenerateError::Memory) => frame_once(alloc, settings),
        frame => frame,
    }
}

/// Asserts the payload of the frame of the settings.
pub fn check_frame<R: Abort + AllocGlobal>(
    rt: &R,
    settings: &Settings,
    payload: &[u8],
    case: &str,
) {
    let frame = frame_of(rt.alloc(), settings).expect(rt, "a frame");
    assert_same(rt, frame.payload(), payload, case);
}

/// Writes the whole frame into the empty vector, from the start again if allocation failed.
fn write(frame: &Frame<'_>, out: &mut Vec<u8>) -> Result<(), PutError> {
    match put(frame, out) {
        Err(PutError::Memory) => {
            out.clear();
            put(frame, out)
        }
        answer => answer,
    }
}

/// Asserts the bytes of the frame in a vector.
fn check_written<R: Abort + AllocGlobal>(rt: &R, frame: &Frame<'_>, bytes: &[u8], case: &str) {
    let mut whole = Vec::new(rt.alloc());
    write(frame, &mut whole).expect(rt, "room");
    assert_same(rt, whole.as_slice(), bytes, case);
}

/// The payload of `steps`, in ascending order of the identifiers.
const STEPS: [u8; 20] = [
    0x01, 0x02, 0x07, 0x01, 0x33, 0x01, 0xab, 0x60, 0x37, 0x42, 0x01, 0xc0, 0x00, 0x00, 0x00, 0xc6,
    0x71, 0x70, 0x6a, 0x03,
];

/// Invalid payloads, the error code, and the case.
static FAULTS: [(&[u8], ErrorCode, &str); 11] = [
    (&[0x33, 0x01, 0x33, 0x00], ErrorCode::Settings, "again"),
    (&[0x33, 0x01, 0x33], ErrorCode::Frame, "again, but cut"),
    (&[0x02], ErrorCode::Frame, "reserved, but cut"),
    (&[0x02, 0x00], ErrorCode::Settings, "reserved"),
    (&[0x00, 0x00], ErrorCode::Settings, "the first reserved"),
    (&[0x05, 0x00], ErrorCode::Settings, "the last reserved"),
    (
        &[0x02, 0x00, 0x33],
        ErrorCode::Settings,
        "reserved before a cut",
    ),
    (&[0x33], ErrorCode::Frame, "a value is missing"),
    (&[0x40], ErrorCode::Frame, "an identifier is cut"),
    (
        &[0x21, 0x00, 0x21, 0x01],
        ErrorCode::Settings,
        "an exercise setting again",
    ),
    (
        &[0x40, 0x21, 0x00, 0x21, 0x00],
        ErrorCode::Settings,
        "in two encodings",
    ),
];

/// Asserts the error code of a payload.
fn check_fault<R: Abort + AllocGlobal>(rt: &R, payload: &[u8], code: ErrorCode, case: &str) {
    let fault = answer(rt, payload).err();
    assert_same(rt, fault, Some(Refused::Code(code)), case);
}

#[test]
fn faults_are_found_in_order_past_refused_memory(rt: HostRuntime) {
    for (payload, code, word) in &FAULTS {
        check_fault(&rt, payload, *code, word);
    }
}

/// Asserts the value of a setting.
fn check_value<R: Abort>(
    rt: &R,
    settings: &Settings,
    id: SettingId,
    wanted: Option<u64>,
    case: &str,
) {
    let value = match settings.get(id) {
        Some(value) => Some(value.into_inner()),
        None => None,
    };
    assert_same(rt, value, wanted, case);
}

#[test]
fn unknown_settings_are_ignored_past_refused_memory(rt: HostRuntime) {
    let read = answer(&rt, &[0x0a, 0x01, 0x0a, 0x02]).expect(&rt, "settings");
    check_frame(&rt, &read, &[], "no setting");
}

#[test]
fn known_settings_are_kept_past_refused_memory(rt: HostRuntime) {
    let mixed = answer(&rt, &[0x21, 0x05, 0x0a, 0x01, 0x06, 0x07]).expect(&rt, "settings");
    let exercise = SettingId::Exercise(VarInt::from_u32(0x21));
    check_value(&rt, &mixed, exercise, Some(5), "exercise");
    let known = SettingId::MaxFieldSectionSize;
    check_value(&rt, &mixed, known, Some(7), "known");
    check_value(&rt, &mixed, SettingId::H3Datagram, None, "not set");
}

/// The frame of `steps`: its type, length and payload.
const WHOLE: [u8; 22] = [
    0x04, 0x14, 0x01, 0x02, 0x07, 0x01, 0x33, 0x01, 0xab, 0x60, 0x37, 0x42, 0x01, 0xc0, 0x00, 0x00,
    0x00, 0xc6, 0x71, 0x70, 0x6a, 0x03,
];

/// Asserts the bytes of the frame of `steps` in a buffer.
fn check_in_buffer<R: Abort>(rt: &R, frame: &Frame<'_>) {
    let mut room = [0x00; 22];
    let mut writer = BufferWriter::new(&mut room);
    let outcome = frame.write_to_buffer(&mut writer);
    let wanted = (Ok(()), WHOLE.as_slice());
    assert_same(rt, (outcome, room.as_slice()), wanted, "into a buffer");
}

/// Asserts the bytes of the frame of `steps` in a buffer and in a vector.
fn check_whole<R: Abort + AllocGlobal>(rt: &R, settings: &Settings) {
    let frame = frame_of(rt.alloc(), settings).expect(rt, "a frame");
    check_in_buffer(rt, &frame);
    check_written(rt, &frame, &WHOLE, "into a vector");
}

/// Asserts the payload of the frame of the settings, built in this buffer.
fn check_lent<R: Abort>(
    rt: &R,
    settings: &Settings,
    buffer: &mut [u8],
    payload: &[u8],
    case: &str,
) {
    assert!(rt; buffer.len() < 64);
    let frame = settings.generate_frame_ref(buffer).expect(rt, "room");
    assert_same(rt, frame.payload(), payload, case);
}

/// Asserts the payload of `steps`, written without a frame into a longer buffer.
fn check_alone<R: Abort>(rt: &R, settings: &Settings, buffer: &mut [u8]) {
    let size = settings.write_to(buffer).expect(rt, "room");
    let came = (size, buffer.get(..20), buffer.get(20..));
    let rest = [0x55; 20];
    let wanted = (20, Some(STEPS.as_slice()), Some(rest.as_slice()));
    assert_same(
        rt,
        came,
        wanted,
        "the payload alone, and what follows stays",
    );
}

/// Asserts the values of `steps`.
fn check_values<R: Abort>(rt: &R, read: &Settings) {
    let blocked = SettingId::QPackBlockedStreams;
    let sessions = SettingId::WebTransportMaxSessions;
    check_value(rt, read, SettingId::QPackMaxTableCapacity, Some(2), "table");
    check_value(rt, read, blocked, Some(1), "blocked streams");
    check_value(rt, read, SettingId::H3Datagram, Some(1), "datagrams");
    check_value(rt, read, SettingId::EnableWebTransport, Some(1), "enabled");
    check_value(rt, read, sessions, Some(3), "sessions");
}

#[test]
fn settings_are_written_by_rising_number_past_refused_memory(rt: HostRuntime) {
    let settings = build(rt.alloc()).expect(&rt, "memory");
    check_whole(&rt, &settings);
    check_lent(&rt, &settings, &mut [0x55; 24], &STEPS, "in a buffer");
    check_alone(&rt, &settings, &mut [0x55; 40]);
}

#[test]
fn settings_are_read_back_past_refused_memory(rt: HostRuntime) {
    let read = answer(&rt, &STEPS).expect(&rt, "settings");
    check_values(&rt, &read);
}

/// Returns a copy of the settings for the connect protocol, made again if allocation failed. A
/// failed allocation leaves the original unchanged.
fn copy<R: Abort + AllocGlobal>(rt: &R, connect: &Settings) -> Settings {
    match connect.clone(rt.alloc()) {
        Ok(copy) => copy,
        Err(_) => {
            check_frame(rt, connect, &[0x08, 0x01], "as before the refusal");
            connect.clone(rt.alloc()).expect(rt, "memory")
        }
    }
}

/// Asserts the frame and the value of the settings for the connect protocol.
fn check_connect<R: Abort + AllocGlobal>(rt: &R, settings: &Settings, case: &str) {
    let frame = frame_of(rt.alloc(), settings).expect(rt, "a frame");
    assert_same(rt, frame.payload(), &[0x08, 0x01], case);
    check_written(rt, &frame, &[0x04, 0x02, 0x08, 0x01], case);
    check_value(
        rt,
        settings,
        SettingId::EnableConnectProtocol,
        Some(1),
        case,
    );
}

#[test]
fn a_step_sets_one_setting_past_refused_memory(rt: HostRuntime) {
    let connect = connect(rt.alloc()).expect(&rt, "memory");
    check_connect(&rt, &copy(&rt, &connect), "their copy");
    check_connect(&rt, &connect, "the settings");
}

/// Asserts that the settings do not fit into a buffer of this size, and the contents of the
/// buffer after that.
fn check_short<R: Abort>(rt: &R, settings: &Settings, room: usize, holds: &[u8], case: &str) {
    assert!(rt; room <= 10);
    let mut buffer = [0x55; 10];
    let is_refused = settings.generate_frame_ref(&mut buffer[..room]).is_err();
    assert_same(rt, (is_refused, &buffer[..room]), (true, holds), case);
}

#[test]
fn a_buffer_may_be_too_short_past_refused_memory(rt: HostRuntime) {
    let settings = datagrams(rt.alloc()).expect(&rt, "memory");
    let exercise = SettingId::Exercise(SettingId::H3Datagram.id());
    check_value(&rt, &settings, exercise, None, "no exercise setting");
    check_lent(&rt, &settings, &mut [0x55; 2], &[0x33, 0x01], "enough");
    check_short(&rt, &settings, 1, &[0x33], "what fits");
}

#[test]
fn a_longer_buffer_may_be_too_short_past_refused_memory(rt: HostRuntime) {
    let long = build(rt.alloc()).expect(&rt, "memory");
    let cut = &STEPS[..10];
    check_short(&rt, &long, 10, cut, "too short for the value");
    let cut = &[0x01, 0x02, 0x07, 0x01, 0x33, 0x01, 0x55, 0x55, 0x55];
    check_short(&rt, &long, 9, cut, "too short for the number");
}

#[test]
fn faults_have_their_texts_past_refused_memory(rt: HostRuntime) {
    has_text(&rt, &GenerateError::PayloadTooLong, "payload too long");
    has_text(&rt, &GenerateError::Memory, "no memory");
}
