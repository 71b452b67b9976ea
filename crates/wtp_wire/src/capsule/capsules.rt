//! The capsules by their kinds.
ghost use Rattle.std.specs.Prelude.{◌≡◌, ◌+◌, length, IfOk};
ghost use Rattle.wtp_core.specs.Writer.{PutsParts, LacksRoom};

use crate::capsule::{Capsule, CapsuleError, CapsuleKind, capsule_types};
use std::alloc::Global;
use std::marker::Model;
use wtp_core::bytes::{BytesWriter, PutError};
use wtp_core::error::{ErrorCode, Refused};
use wtp_core::varint::VarInt;

/// A WebTransport session is closed, with an error code and a reason of the application
/// (draft-ietf-webtrans-http3-02, section 5).
#[derive(Debug, Drop)]
pub struct CloseWebTransportSession {
    error_code: u32,
    reason: String,
}

impl Model for CloseWebTransportSession {
    ghost use Rattle.std.specs.Prelude.{ℕ, ◌≤◌, List, length, string_bytes};

    ghost Value = { ℕ × List ℕ };

    ghost view = { λ c. (c.error_code, string_bytes c.reason) };

    ghost invariant = { λ c. length (string_bytes c.reason) ≤ 1024 };
}

impl CloseWebTransportSession {
    ghost use Rattle.std.specs.Prelude.{◌≤◌, drop, IfSome, MatchOption, Some, None};
    ghost use Rattle.wtp_wire.specs.CloseSession.{close_in, AnswersClose, MakesClose, IsWritableClose, close_parts, close_wire, payload_parts};

    /// The longest reason, in bytes (draft-ietf-webtrans-http3-02, section 5).
    pub const MAX_REASON_LEN: usize = 1024;

    /// Creates a close with this code and reason.
    ///
    /// Returns `TooLong` if the reason has more than 1024 bytes, before it allocates. Returns
    /// `Memory` if allocation failed; only a reason that is not empty allocates.
    pub fn new(alloc: Global, error_code: u32, reason: &str) -> Result<Self, CapsuleError>
        ensures made { MakesClose error_code reason.now result }
        ensures writable { IfOk result (λ close. IsWritableClose close) }
    {
        if reason.len() > Self::MAX_REASON_LEN {
            return Err(CapsuleError::TooLong);
        }
        let mut copy = String::new(alloc);
        match copy.push_str(reason) {
            Ok(()) => Ok(CloseWebTransportSession {
                error_code,
                reason: copy,
            }),
            Err(_) => Err(CapsuleError::Memory),
        }
    }

    /// Returns the code and the reason that the payload of such a capsule consists of: an error
    /// code of four bytes, most significant first, and then the reason, which is all bytes after
    /// them (draft-ietf-webtrans-http3-02, section 5).
    ///
    /// Returns `None` if the payload has fewer than 4 or more than 1028 bytes, or is not UTF-8 after
    /// the first four.
    #[tactic(auto, unfolding(crate::specs::CloseSession::close_in))]
    pub fn code_and_reason(payload: &[u8]) -> Option<(u32, &str)>
        ensures parts { MatchOption result (close_in payload.now ≡ None)
            (λ parts. close_in payload.now ≡ Some (parts.0, parts.1.now)) }
        // The reason is all bytes after the code.
        ensures reason { IfSome result (λ parts. parts.1.now ≡ drop 4 payload.now) }
        ensures short { IfSome result (λ parts. length parts.1.now ≤ 1024) }
    {
        let (code, text) = payload.split_first_chunk::<4>()?;
        if text.len() > Self::MAX_REASON_LEN {
            return None;
        }
        match str::from_utf8(text) {
            Ok(reason) => Some((u32::from_be_bytes(*code), reason)),
            Err(_) => None,
        }
    }

    /// Reads the code and the reason from a capsule's payload, as
    /// [`CloseWebTransportSession::code_and_reason`] finds them. Requires that the capsule closes
    /// its session, which `Capsule::kind` says.
    ///
    /// Returns `Code(Datagram)` if the payload has fewer than 4 or more than 1028 bytes, or is not
    /// UTF-8 after the first four. Returns `Memory` if allocation failed; only a valid payload with
    /// a reason that is not empty allocates. The capsule does not change, and may be read again.
    pub fn with_capsule(alloc: Global, capsule: &Capsule<'_>) -> Result<Self, Refused>
        requires { capsule.now.0 ≡ CapsuleKind.CloseWebTransportSession }
        ensures { AnswersClose capsule.now.1 result }
    {
        let Some((error_code, text)) = Self::code_and_reason(capsule.payload()) else {
            return Err(Refused::Code(ErrorCode::Datagram));
        };
        let mut reason = String::new(alloc);
        match reason.push_str(text) {
            Ok(()) => Ok(CloseWebTransportSession { error_code, reason }),
            Err(_) => Err(Refused::Memory),
        }
    }

    /// Returns the application's error code.
    pub fn error_code(&self) -> VarInt
        ensures { result ≡ self.now.0 }
    {
        VarInt::from_u32(self.error_code)
    }

    /// Returns the reason.
    pub fn reason(&self) -> &str
        ensures { result.now ≡ self.now.1 }
    {
        self.reason.as_str()
    }

    /// Writes the capsule, each number in its shortest encoding.
    ///
    /// The parts are the type, the length, the code in four bytes, most significant first, and the
    /// reason. On an error the writer holds the parts before the one that it refused.
    pub fn write<W: BytesWriter>(&self, writer: &mut W) -> Result<(), PutError>
        ensures parts { PutsParts W.grows (close_parts self.now) result (W.written writer.old)
            (W.room writer.old) (W.written writer.new) (W.room writer.new) }
        ensures full { result ≡ Err PutError.EndOfBuffer
            → LacksRoom (W.room writer.old) (length (close_wire self.now)) }
        ensures target { W.target writer.new ≡ W.target writer.old }
    {
        writer.put_varint(capsule_types::CAPSULE_TYPE_CLOSE_WEBTRANSPORT_SESSION)?;
        writer.put_varint(self.payload_len())?;
        self.write_payload(writer)
    }

    // Writes the payload: the code and the reason.
    fn write_payload<W: BytesWriter>(&self, writer: &mut W) -> Result<(), PutError>
        ensures parts { PutsParts W.grows (payload_parts self.now) result (W.written writer.old)
            (W.room writer.old) (W.written writer.new) (W.room writer.new) }
        ensures target { W.target writer.new ≡ W.target writer.old }
    {
        writer.put_bytes(&self.error_code.to_be_bytes())?;
        writer.put_bytes(self.reason.as_bytes())
    }

    /// Returns the number of bytes that `write` writes.
    pub fn write_size(&self) -> usize
        ensures size { result ≡ length (close_wire self.now) }
        ensures writable { IsWritableClose self.now }
    {
        let head = capsule_types::CAPSULE_TYPE_CLOSE_WEBTRANSPORT_SESSION.size();
        let code = self.error_code.to_be_bytes();
        let reason = self.reason.as_str().as_bytes();
        head + self.payload_len().size() + code.len() + reason.len()
    }

    // Returns the length of the payload.
    fn payload_len(&self) -> VarInt
        ensures { result ≡ 4 + length self.now.1 }
    {
        VarInt::from_u32(4 + self.reason.len() as u32)
    }
}

// The limit (draft-ietf-webtrans-http3-02, section 5).
const _: () = prove!(CloseWebTransportSession::MAX_REASON_LEN == 1024);
