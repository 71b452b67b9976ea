//! Why a message is malformed.
ghost use Rattle.std.specs.Prelude.{◌≡◌};
ghost use Rattle.wtp_core.specs.declared.error.ErrorCode.TheVariants.{Message};

use thiserror::Error;
use wtp_core::error::ErrorCode;

/// The rule that a message breaks (RFC 9114, section 4.1.2). Each is an error of its stream alone, with
/// the same code. Of several rules that a field section breaks, any may be reported.
#[derive(Debug, Drop, Clone, Copy, PartialEq, Eq, Error)]
pub enum Malformed {
    /// The name of a field is empty, has an upper-case letter or is not a token (RFC 9114, section
    /// 4.2; RFC 9110, section 5.1).
    #[error("a field has an invalid name")]
    InvalidName,
    /// The value of a field has a control character other than a tab, or a space or a tab at an end
    /// (RFC 9110, section 5.5; RFC 9114, section 10.3).
    #[error("a field has an invalid value")]
    InvalidValue,
    /// There is a field that is specific to a connection of HTTP/1.1, such as `transfer-encoding`
    /// (RFC 9114, section 4.2).
    #[error("a field is specific to a connection")]
    ConnectionField,
    /// There is a `te` field outside of a request, or with another value than `trailers` (RFC 9114,
    /// section 4.2).
    #[error("the te field is invalid")]
    InvalidTe,
    /// A pseudo-header field is not defined for this kind of section (RFC 9114, section 4.3).
    #[error("a pseudo-header field is not defined here")]
    UnknownPseudoHeader,
    /// A pseudo-header field follows another field (RFC 9114, section 4.3).
    #[error("a pseudo-header field follows another field")]
    LatePseudoHeader,
    /// A pseudo-header field is repeated (RFC 9114, section 4.3).
    #[error("a pseudo-header field is repeated")]
    RepeatedPseudoHeader,
    /// A `content-length` is not a decimal number below 2^62, or two of them differ; or a response that
    /// is sent has one, with status 1xx or 204, or 2xx to a CONNECT request (RFC 9110, sections 8.6 and
    /// 9.3.6).
    #[error("the content-length is invalid")]
    InvalidContentLength,
    /// A request has no `:method` (RFC 9114, section 4.3.1).
    #[error("there is no :method")]
    MissingMethod,
    /// The `:method` is not a token (RFC 9110, section 9.1).
    #[error("the :method is invalid")]
    InvalidMethod,
    /// A request other than CONNECT, or an extended CONNECT, has no `:scheme` (RFC 9114, section
    /// 4.3.1; RFC 8441, section 4).
    #[error("there is no :scheme")]
    MissingScheme,
    /// The `:scheme` is not a URI scheme (RFC 3986, section 3.1), or not `https` in a request for a
    /// session of WebTransport (draft-ietf-webtrans-http3-02, section 3.3).
    #[error("the :scheme is invalid")]
    InvalidScheme,
    /// A request other than CONNECT, or an extended CONNECT, has no `:path` (RFC 9114, section
    /// 4.3.1; RFC 8441, section 4).
    #[error("there is no :path")]
    MissingPath,
    /// The `:path` of a URI with the scheme `http` or `https` is invalid (RFC 9114, section 4.3.1).
    #[error("the :path is invalid")]
    InvalidPath,
    /// A CONNECT request, or one with the scheme `http` or `https`, has no authority, or an empty
    /// one (RFC 9114, sections 4.3.1 and 4.4).
    #[error("there is no authority")]
    MissingAuthority,
    /// In such a request `:authority` and `host` differ, there are two `host` fields, or one is no
    /// host with at most a port (RFC 3986, section 3.2): its host is empty, it has user information,
    /// or a byte that is not allowed. In a CONNECT request without `:protocol` it has no port (RFC
    /// 9114, sections 4.3.1 and 4.4; RFC 9110, sections 4.2.2, 7.2 and 9.3.6).
    #[error("the authority is invalid")]
    InvalidAuthority,
    /// A CONNECT request without `:protocol` has a `:scheme` or a `:path` (RFC 9114, section 4.4).
    #[error("a CONNECT request has a :scheme or a :path")]
    ConnectWithTarget,
    /// There is a `:protocol` in a request other than CONNECT, or at an endpoint that does not allow
    /// extended CONNECT (RFC 8441, section 4; RFC 9220, section 3).
    #[error("the :protocol is not allowed")]
    UnexpectedProtocol,
    /// The `:protocol` is not a token (RFC 8441, section 4).
    #[error("the :protocol is invalid")]
    InvalidProtocol,
    /// A request for a session, or a response that accepts it, has a field of content:
    /// `content-length` or `content-type` (RFC 9297, section 3.2).
    #[error("a session's message has a field of content")]
    ContentField,
    /// A response has no `:status` (RFC 9114, section 4.3.2).
    #[error("there is no :status")]
    MissingStatus,
    /// The `:status` is not a number of three digits from 100 on, or it is 101 (RFC 9110, section
    /// 15; RFC 9114, section 4.5).
    #[error("the :status is invalid")]
    InvalidStatus,
    /// A response that accepts a session has status 204, 205 or 206 (RFC 9297, section 3.2).
    #[error("the :status does not go with a session")]
    UnexpectedStatus,
    /// The message ended before the header section of the request or the final response (RFC 9114,
    /// section 4.1).
    #[error("there is no header section")]
    MissingHead,
    /// There is more content than announced (RFC 9114, section 4.1.2).
    #[error("the content is longer than announced")]
    ContentTooLong,
    /// There is less content than announced (RFC 9114, section 4.1.2).
    #[error("the content is shorter than announced")]
    ContentTooShort,
}

impl Malformed {
    /// Returns the error code, [`ErrorCode::Message`] (RFC 9114, section 4.1.2).
    pub fn code(&self) -> ErrorCode
        ensures { result ≡ Message }
    {
        ErrorCode::Message
    }
}
