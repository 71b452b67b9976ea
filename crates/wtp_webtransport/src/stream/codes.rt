//! The error codes with which an application resets and stops the streams of a session
//! (draft-ietf-webtrans-http3-02, section 4.3; draft-ietf-webtrans-http3-07, section 4.3).
ghost use Rattle.std.specs.Prelude.{◌≡◌, ◌≢◌, ◌<◌, ◌^◌, ℕ, MatchOption};
ghost use Rattle.wtp_core.specs.ApplicationCodes.{http3_number};
ghost use Rattle.wtp_webtransport.specs.Streams.{IsOfSession};

use crate::stream::{Part, Stream};
use wtp_core::error::application_codes;
use wtp_core::varint::VarInt;

impl Stream {
    /// Returns the application's error code in a RESET_STREAM or STOP_SENDING of the peer with this code,
    /// if the stream is one of a session. [`to_http3`](wtp_core::error::application_codes::to_http3)
    /// returns the code with which a stream of a session is to be reset or stopped for the application.
    ///
    /// Returns `None` for any other stream, and if no application has the code: it is not between
    /// 0x52e4a40fa8db and 0x52e5ac983162, or it is reserved (RFC 9114, section 8.1). That is no error.
    pub fn application_code(&self, code: u64) -> Option<u32>
        ensures { MatchOption result
            (IsOfSession self.now.part → (n : ℕ) → n < 2 ^ 32 → code ≢ http3_number n)
            (λ n. IsOfSession self.now.part × (code ≡ http3_number n)) }
    {
        let Part::OfSession = self.part else {
            return None;
        };
        let Ok(number) = VarInt::try_from_u64(code) else {
            return None;
        };
        match application_codes::from_http3(number) {
            Ok(found) => Some(found),
            Err(_) => None,
        }
    }
}
