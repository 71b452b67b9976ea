//! Codes of resets and stops.
ghost use Rattle.std.specs.Prelude.{◌≡◌};
ghost use Rattle.vesgrauf.specs.Codes.{number_of};
ghost use Rattle.vesgrauf.specs.declared.code.StreamCode.TheVariants as codes;

use wtp_core::error::{Code, application_codes};

/// The code with which a half of a stream is reset or stopped. [`Code`] and `u32` convert to it.
#[derive(Clone, Copy, Debug, PartialEq, Eq)]
pub enum StreamCode {
    /// A code of HTTP/3, registered or not (RFC 9114, section 8.1): that of a message, and of a session's own stream. On a
    /// stream of a session it is the peer's alone, if no application's code has its number.
    Http(Code),
    /// The application's, on a stream of a session (draft-ietf-webtrans-http3-02, section 4.3).
    Application(u32),
}

impl StreamCode {
    /// Returns the number that QUIC sends.
    pub fn number(self) -> u64
        ensures { result ≡ number_of self }
    {
        match self {
            StreamCode::Http(code) => code.number().into_inner(),
            StreamCode::Application(code) => application_codes::to_http3(code).into_inner(),
        }
    }
}

impl From<Code> for StreamCode {
    ghost from_gives = { λ number made. made ≡ codes.Http number };

    fn from(code: Code) -> Self {
        StreamCode::Http(code)
    }
}

impl From<u32> for StreamCode {
    ghost from_gives = { λ number made. made ≡ codes.Application number };

    fn from(code: u32) -> Self {
        StreamCode::Application(code)
    }
}
