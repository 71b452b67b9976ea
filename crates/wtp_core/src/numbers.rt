//! Registered numbers of HTTP/3 and WebTransport, as variable-length integer constants.
//!
//! The modules of the wire format re-export them under their own names. They are defined here
//! because a `VarInt` constant is a struct literal, and its field is private to this crate.

ghost use Rattle.std.specs.Prelude.{◌≡◌, ◌↔◌, IsTrue};
ghost use Rattle.wtp_core.specs.Numbers.{IsReserved, is_reserved};

use crate::varint::VarInt;

/// Returns whether the number is `0x1f * n + 0x21` for a number `n`.
///
/// Frame types, stream types, setting identifiers and error codes of this form are reserved, to
/// exercise the requirement that unknown ones are ignored (RFC 9114, sections 7.2.8, 6.2.3, 7.2.4.1
/// and 8.1).
#[inline(always)]
pub fn is_reserved(number: VarInt) -> bool
    ensures value { result ≡ is_reserved number }
    ensures reserved { IsTrue result ↔ IsReserved number }
{
    number.value >= 0x21 && (number.value - 0x21) % 0x1f == 0
}

/// Frame types (RFC 9114, section 11.2.1; 0x41: draft-ietf-webtrans-http3-02, section 4.2).
pub mod frame_kind_ids {
    use crate::varint::VarInt;

    /// A DATA frame.
    pub const DATA: VarInt = VarInt { value: 0x00 };

    /// A HEADERS frame.
    pub const HEADERS: VarInt = VarInt { value: 0x01 };

    /// A SETTINGS frame.
    pub const SETTINGS: VarInt = VarInt { value: 0x04 };

    /// The start of a bidirectional WebTransport stream.
    pub const WEBTRANSPORT_STREAM: VarInt = VarInt { value: 0x41 };
}

/// Types of unidirectional streams (RFC 9114, section 6.2; RFC 9204, section 4.2; 0x54:
/// draft-ietf-webtrans-http3-02, section 4.1).
pub mod stream_type_ids {
    use crate::varint::VarInt;

    /// The control stream.
    pub const CONTROL_STREAM: VarInt = VarInt { value: 0x00 };

    /// The QPACK encoder stream.
    pub const QPACK_ENCODER_STREAM: VarInt = VarInt { value: 0x02 };

    /// The QPACK decoder stream.
    pub const QPACK_DECODER_STREAM: VarInt = VarInt { value: 0x03 };

    /// A unidirectional WebTransport stream.
    pub const WEBTRANSPORT_STREAM: VarInt = VarInt { value: 0x54 };
}

/// Setting identifiers (RFC 9114, section 7.2.4.1; RFC 9204, section 5; RFC 9220; RFC 9297;
/// WebTransport).
pub mod setting_ids {
    use crate::varint::VarInt;

    /// The maximum size of the QPACK dynamic table, in bytes.
    pub const SETTINGS_QPACK_MAX_TABLE_CAPACITY: VarInt = VarInt { value: 0x01 };

    /// The maximum size of a field section, in bytes.
    pub const SETTINGS_MAX_FIELD_SECTION_SIZE: VarInt = VarInt { value: 0x06 };

    /// The maximum number of streams that QPACK may block.
    pub const SETTINGS_QPACK_BLOCKED_STREAMS: VarInt = VarInt { value: 0x07 };

    /// Extended CONNECT is supported.
    pub const SETTINGS_ENABLE_CONNECT_PROTOCOL: VarInt = VarInt { value: 0x08 };

    /// Datagrams are supported.
    pub const SETTINGS_H3_DATAGRAM: VarInt = VarInt { value: 0x33 };

    /// WebTransport is supported (draft-ietf-webtrans-http3-02, section 3.1).
    pub const SETTINGS_ENABLE_WEBTRANSPORT: VarInt = VarInt { value: 0x2b60_3742 };

    /// The maximum number of concurrent WebTransport sessions (draft-ietf-webtrans-http3-07).
    pub const SETTINGS_WEBTRANSPORT_MAX_SESSIONS: VarInt = VarInt { value: 0xc671_706a };
}

/// Capsule types (RFC 9297, section 3.2; WebTransport).
pub mod capsule_types {
    use crate::varint::VarInt;

    /// A WebTransport session is closed (draft-ietf-webtrans-http3-02, section 5).
    pub const CAPSULE_TYPE_CLOSE_WEBTRANSPORT_SESSION: VarInt = VarInt { value: 0x2843 };
}

// The registered numbers.
const _: () = prove!(frame_kind_ids::DATA.value == 0x00);

const _: () = prove!(frame_kind_ids::HEADERS.value == 0x01);

const _: () = prove!(frame_kind_ids::SETTINGS.value == 0x04);

const _: () = prove!(frame_kind_ids::WEBTRANSPORT_STREAM.value == 0x41);

const _: () = prove!(stream_type_ids::CONTROL_STREAM.value == 0x00);

const _: () = prove!(stream_type_ids::QPACK_ENCODER_STREAM.value == 0x02);

const _: () = prove!(stream_type_ids::QPACK_DECODER_STREAM.value == 0x03);

const _: () = prove!(stream_type_ids::WEBTRANSPORT_STREAM.value == 0x54);

const _: () = prove!(setting_ids::SETTINGS_QPACK_MAX_TABLE_CAPACITY.value == 0x01);

const _: () = prove!(setting_ids::SETTINGS_MAX_FIELD_SECTION_SIZE.value == 0x06);

const _: () = prove!(setting_ids::SETTINGS_QPACK_BLOCKED_STREAMS.value == 0x07);

const _: () = prove!(setting_ids::SETTINGS_ENABLE_CONNECT_PROTOCOL.value == 0x08);

const _: () = prove!(setting_ids::SETTINGS_H3_DATAGRAM.value == 0x33);

const _: () = prove!(setting_ids::SETTINGS_ENABLE_WEBTRANSPORT.value == 0x2b60_3742);

const _: () = prove!(setting_ids::SETTINGS_WEBTRANSPORT_MAX_SESSIONS.value == 0xc671_706a);

const _: () = prove!(capsule_types::CAPSULE_TYPE_CLOSE_WEBTRANSPORT_SESSION.value == 0x2843);
