//! Settings of a connection, and SETTINGS frames (RFC 9114, section 7.2.4).
ghost use Rattle.std.specs.Prelude.{◌≡◌, ◌≢◌, ◌≤◌, ◌<◌, ◌^◌, [], length, true, ◌↔◌, IsOk, OnErr, IfOk, Err, Some, None};
ghost use Rattle.wtp_core.specs.Writer.{PutsParts};

mod builder;
mod iter;
mod pairs;

use crate::frame::{Frame, FrameKind, FrameOwned, GenerateError};
pub use builder::SettingsBuilder;
pub use iter::SettingsIter;
pub use pairs::{SettingPair, SettingPairs};
use std::alloc::{AllocError, Global};
use std::borrow::CowSlice;
use std::collections::BTreeMap;
use std::fmt;
use std::marker::Model;
use wtp_core::bytes::{BufferWriter, BytesReader, BytesWriter, EndOfBuffer, PutError};
use wtp_core::error::{ErrorCode, Refused};
use wtp_core::numbers;
pub use wtp_core::numbers::setting_ids;
use wtp_core::varint::VarInt;

/// The identifier of a setting.
#[derive(Clone, Copy, Debug, Hash, PartialEq, Eq)]
pub enum SettingId {
    /// The maximum size of the QPACK dynamic table, in bytes (RFC 9204, section 5).
    QPackMaxTableCapacity,
    /// The maximum size of a field section, in bytes (RFC 9114, section 7.2.4.1).
    MaxFieldSectionSize,
    /// The number of streams that QPACK may block (RFC 9204, section 5).
    QPackBlockedStreams,
    /// Extended CONNECT is supported (RFC 9220, section 3).
    EnableConnectProtocol,
    /// Datagrams are supported (RFC 9297, section 2.1.1).
    H3Datagram,
    /// WebTransport is supported: 0x2b603742 (draft-ietf-webtrans-http3-02, section 3.1).
    EnableWebTransport,
    /// The maximum number of concurrent WebTransport sessions: 0xc671706a
    /// (draft-ietf-webtrans-http3-07, "HTTP/3 SETTINGS Parameter Registration").
    WebTransportMaxSessions,
    /// An identifier that is reserved to exercise the requirement to ignore unknown identifiers
    /// (RFC 9114, section 7.2.4.1).
    Exercise(VarInt),
}

impl SettingId {
    ghost use Rattle.wtp_wire.specs.SettingId.{setting_number_of, setting_id_of, known_number_of, is_reserved};
    ghost use Rattle.wtp_wire.specs.Kind.{is_exercise};

    /// Returns the number.
    pub fn id(self) -> VarInt
        ensures { result ≡ setting_number_of self }
    {
        match self {
            SettingId::QPackMaxTableCapacity => setting_ids::SETTINGS_QPACK_MAX_TABLE_CAPACITY,
            SettingId::MaxFieldSectionSize => setting_ids::SETTINGS_MAX_FIELD_SECTION_SIZE,
            SettingId::QPackBlockedStreams => setting_ids::SETTINGS_QPACK_BLOCKED_STREAMS,
            SettingId::EnableConnectProtocol => setting_ids::SETTINGS_ENABLE_CONNECT_PROTOCOL,
            SettingId::H3Datagram => setting_ids::SETTINGS_H3_DATAGRAM,
            SettingId::EnableWebTransport => setting_ids::SETTINGS_ENABLE_WEBTRANSPORT,
            SettingId::WebTransportMaxSessions => setting_ids::SETTINGS_WEBTRANSPORT_MAX_SESSIONS,
            SettingId::Exercise(id) => id,
        }
    }

    /// Returns the setting of this number, or `None` if the number is unknown.
    #[tactic(auto, unfolding(crate::specs::SettingId::setting_id_of))]
    pub fn parse(id: VarInt) -> Option<Self>
        ensures { result ≡ setting_id_of id }
    {
        match id {
            setting_ids::SETTINGS_QPACK_MAX_TABLE_CAPACITY => {
                Some(SettingId::QPackMaxTableCapacity)
            }
            setting_ids::SETTINGS_MAX_FIELD_SECTION_SIZE => Some(SettingId::MaxFieldSectionSize),
            setting_ids::SETTINGS_QPACK_BLOCKED_STREAMS => Some(SettingId::QPackBlockedStreams),
            setting_ids::SETTINGS_ENABLE_CONNECT_PROTOCOL => Some(SettingId::EnableConnectProtocol),
            setting_ids::SETTINGS_H3_DATAGRAM => Some(SettingId::H3Datagram),
            setting_ids::SETTINGS_ENABLE_WEBTRANSPORT => Some(SettingId::EnableWebTransport),
            setting_ids::SETTINGS_WEBTRANSPORT_MAX_SESSIONS => {
                Some(SettingId::WebTransportMaxSessions)
            }
            _ if SettingId::is_exercise(id) => Some(SettingId::Exercise(id)),
            _ => None,
        }
    }

    /// Returns whether the number is one of those reserved for exercise, `0x21 + 0x1f * n`.
    fn is_exercise(id: VarInt) -> bool
        ensures { result ≡ is_exercise id }
    {
        numbers::is_reserved(id)
    }

    /// Returns whether the number identified a setting of HTTP/2 that HTTP/3 does not have: 0x00,
    /// or 0x02 to 0x05. Such a setting must not be received (RFC 9114, section 7.2.4.1).
    pub fn is_reserved(id: VarInt) -> bool
        ensures { result ≡ is_reserved id }
    {
        matches!(id.into_inner(), 0x00 | 0x02..=0x05)
    }

    /// Returns the number, or `None` for an exercise setting whose number is not reserved for
    /// exercise.
    fn known_number(self) -> Option<VarInt>
        ensures { result ≡ known_number_of self }
    {
        match self {
            SettingId::Exercise(id) if !SettingId::is_exercise(id) => None,
            _ => Some(self.id()),
        }
    }
}

impl fmt::Display for SettingId {
    ghost use Rattle.std.specs.Prelude.{Some};
    ghost use Rattle.wtp_wire.specs.SettingId.{setting_name_of};

    ghost output = { λ setting. Some (setting_name_of setting) };

    /// Prints the name in the standards, as `SETTINGS_H3_DATAGRAM`; of an exercise setting its
    /// number, as `0x21`.
    fn fmt<W: fmt::Write>(&self, f: &mut fmt::Formatter<W>) -> fmt::Result {
        match self {
            SettingId::QPackMaxTableCapacity => f.write_str("SETTINGS_QPACK_MAX_TABLE_CAPACITY"),
            SettingId::MaxFieldSectionSize => f.write_str("SETTINGS_MAX_FIELD_SECTION_SIZE"),
            SettingId::QPackBlockedStreams => f.write_str("SETTINGS_QPACK_BLOCKED_STREAMS"),
            SettingId::EnableConnectProtocol => f.write_str("SETTINGS_ENABLE_CONNECT_PROTOCOL"),
            SettingId::H3Datagram => f.write_str("SETTINGS_H3_DATAGRAM"),
            SettingId::EnableWebTransport => f.write_str("SETTINGS_ENABLE_WEBTRANSPORT"),
            SettingId::WebTransportMaxSessions => {
                f.write_str("SETTINGS_WEBTRANSPORT_MAX_SESSIONS")
            }
            SettingId::Exercise(id) => {
                let number = id.into_inner();
                write!(f, "0x{number:x}")
            }
        }
    }
}

/// Settings of a connection: the value of each setting that is set.
#[derive(Drop)]
pub struct Settings {
    values: BTreeMap<VarInt, VarInt>,
}

impl Model for Settings {
    ghost use Rattle.std.specs.Prelude.{ℕ, List};
    ghost use Rattle.wtp_wire.specs.Settings.{IsSettings};

    ghost Value = { List (ℕ × ℕ) };

    ghost view = { λ s. s.values.entries };

    ghost invariant = { λ s. IsSettings s.values.entries };
}

// As the Rust crate prints them, in ascending order of the numbers.
impl fmt::Debug for Settings {
    fn fmt<W: fmt::Write>(&self, f: &mut fmt::Formatter<W>) -> fmt::Result {
        f.debug_tuple("Settings").field(&self.iter()).finish()
    }
}

impl Settings {
    ghost use Rattle.wtp_wire.specs.Content.{kind_in, payload_in, SettingsOf};
    ghost use Rattle.wtp_wire.specs.SettingId.{is_setting};
    ghost use Rattle.wtp_wire.specs.Settings.{IsSettings, setting_value, value_at, with_setting, settings_parts, settings_wire, overwritten, KeepsSetting, AnswersSettings};

    /// Returns a builder in which nothing is set. Only its steps allocate.
    pub fn builder(alloc: Global) -> SettingsBuilder
        ensures { result ≡ [] }
    {
        SettingsBuilder::new(Settings::new(alloc))
    }

    /// Creates settings in which nothing is set.
    fn new(alloc: Global) -> Self
        ensures { result ≡ [] }
    {
        Settings {
            values: BTreeMap::new(alloc),
        }
    }

    /// Reads the settings of a SETTINGS frame.
    ///
    /// Returns the first fault of its payload: `Code(Frame)` if an identifier or a value is
    /// truncated; `Code(Settings)` for an identifier that is reserved because HTTP/2 used it, and
    /// for a repeated identifier that is known or an exercise one. Unknown identifiers are ignored,
    /// and may be repeated. Returns `Memory` only after settings without a fault.
    pub fn with_frame(alloc: Global, frame: &Frame<'_>) -> Result<Self, Refused>
        requires { kind_in frame.now ≡ FrameKind.Settings }
        ensures { AnswersSettings (payload_in frame.now) result }
    {
        let mut settings = Settings::new(alloc);
        let mut payload = frame.payload();
        while !payload.is_empty() {
            let Some(number) = payload.get_varint() else {
                return Err(Refused::Code(ErrorCode::Frame));
            };
            let Some(value) = payload.get_varint() else {
                return Err(Refused::Code(ErrorCode::Frame));
            };
            settings.keep(number, value)?;
        }
        Ok(settings)
    }

    /// Stores one pair of a payload, if its number is known or reserved for exercise.
    #[tactic(auto, unfolding(crate::specs::Settings::kept_with))]
    fn keep(&mut self, number: VarInt, value: VarInt) -> Result<(), Refused>
        ensures { KeepsSetting self.old (number, value) result self.new }
    {
        if SettingId::is_reserved(number) {
            return Err(Refused::Code(ErrorCode::Settings));
        }
        if SettingId::parse(number).is_none() {
            return Ok(());
        }
        match self.set(number, value) {
            Ok(None) => Ok(()),
            Ok(Some(_)) => Err(Refused::Code(ErrorCode::Settings)),
            Err(_) => Err(Refused::Memory),
        }
    }

    /// Sets the value of a number, and returns the previous one.
    pub(crate) fn set(
        &mut self,
        number: VarInt,
        value: VarInt,
    ) -> Result<Option<VarInt>, AllocError>
        requires { is_setting number ≡ true }
        ensures ok { IfOk result
            (λ before. (before ≡ value_at self.old number)
            × (self.new ≡ with_setting self.old number value)) }
        ensures err { OnErr result ((value_at self.old number ≡ None) × (self.new ≡ self.old)) }
    {
        prove!(number.into_inner() <= VarInt::MAX.into_inner());
        prove!(value.into_inner() <= VarInt::MAX.into_inner());
        Ok(self.values.insert(number, value)?)
    }

    /// Creates a SETTINGS frame of these settings, in ascending order of their numbers, with a
    /// payload of its own.
    ///
    /// Returns `Memory` if allocation failed, which cannot happen if nothing is set. Returns
    /// `PayloadTooLong` if the payload would have 2^62 bytes or more. The settings do not change.
    pub fn generate_frame(&self, alloc: Global) -> Result<FrameOwned, GenerateError>
        ensures ok { IfOk result (λ f. f ≡ SettingsOf (settings_wire self.now)) }
        ensures too_long { result ≡ Err GenerateError.PayloadTooLong
            → 2 ^ 62 ≤ length (settings_wire self.now) }
        ensures memory { result ≡ Err GenerateError.Memory → self.now ≢ [] }
        ensures settings { IsSettings self.now }
    {
        let mut payload = Vec::new(alloc);
        if self.write_payload(&mut payload).is_err() {
            return Err(GenerateError::Memory);
        }
        if payload.len() as u64 > VarInt::MAX.into_inner() {
            return Err(GenerateError::PayloadTooLong);
        }
        Ok(Frame::new_settings(CowSlice::Owned(payload)))
    }

    /// Creates a SETTINGS frame of these settings, in ascending order of their numbers, with its
    /// payload in the buffer. It does not allocate.
    ///
    /// Returns `EndOfBuffer` exactly if the buffer is too short. What the buffer holds then is not
    /// said here: `write_to` says it.
    pub fn generate_frame_ref<'a>(&self, buffer: &'a mut [u8]) -> Result<Frame<'a>, EndOfBuffer>
        requires { length buffer.old < 2 ^ 62 }
        ensures room { IsOk result ↔ (length (settings_wire self.now) ≤ length buffer.old) }
        ensures ok { IfOk result (λ f. f ≡ SettingsOf (settings_wire self.now)) }
        ensures settings { IsSettings self.now }
    {
        let len = self.write_to(buffer)?;
        Ok(Frame::new_settings(CowSlice::Borrowed(&buffer[..len])))
    }

    /// Writes the payload of a SETTINGS frame to the start of the buffer, in ascending order of the
    /// setting numbers, and returns its size in bytes. It does not allocate.
    ///
    /// Returns `EndOfBuffer` exactly if the buffer is too short. Whatever it returns, the buffer
    /// then starts with those of the payload's numbers that fit completely, and its other bytes do
    /// not change.
    ///
    /// Source: RFC 9114, section 7.2.4.
    #[tactic(auto, using(crate::proofs::OverwrittenLemmas::whole_slices))]
    pub fn write_to(&self, buffer: &mut [u8]) -> Result<usize, EndOfBuffer>
        ensures room { IsOk result ↔ (length (settings_wire self.now) ≤ length buffer.old) }
        ensures size { IfOk result (λ n. n ≡ length (settings_wire self.now)) }
        ensures bytes { buffer.new ≡ overwritten (settings_parts self.now) buffer.old }
        ensures settings { IsSettings self.now }
    {
        let mut writer = BufferWriter::new(buffer);
        match self.write_payload(&mut writer) {
            Ok(()) => Ok(writer.offset()),
            Err(_) => Err(EndOfBuffer),
        }
    }

    /// Writes the payload: the number of each setting, and then its value.
    fn write_payload<W: BytesWriter>(&self, writer: &mut W) -> Result<(), PutError>
        ensures parts { PutsParts W.grows (settings_parts self.now) result (W.written writer.old)
            (W.room writer.old) (W.written writer.new) (W.room writer.new) }
        ensures target { W.target writer.new ≡ W.target writer.old }
        ensures settings { IsSettings self.now }
    {
        for (number, value) in &self.values {
            writer.put_varint(*number)?;
            writer.put_varint(*value)?;
        }
        Ok(())
    }

    /// Returns the same settings, allocated by `alloc`.
    ///
    /// Returns `AllocError` if allocation failed, which cannot happen if nothing is set. These
    /// settings do not change.
    pub fn clone(&self, alloc: Global) -> Result<Self, AllocError>
        ensures ok { IfOk result (λ s. s ≡ self.now) }
        ensures err { OnErr result (self.now ≢ []) }
    {
        let mut settings = Settings::new(alloc);
        for (number, value) in &self.values {
            settings.set(*number, *value)?;
        }
        Ok(settings)
    }

    /// Returns the value of a setting, if it is set. An exercise setting has none if its number is
    /// not reserved for exercise.
    pub fn get(&self, id: SettingId) -> Option<VarInt>
        ensures { result ≡ setting_value self.now id }
    {
        let number = id.known_number()?;
        self.values.get(&number).copied()
    }
}
