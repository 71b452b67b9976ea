//! The rules that an inspection checks beyond those that end it.

ghost use Rattle.std.specs.Prelude.{◌≡◌};
ghost use Rattle.wt_inspection_model.specs.Rules.{is_hint};

use wtp_core::error::Code;

/// A rule that bytes break without an end of reading, or a hint that they are of another kind than
/// the one that was named.
#[derive(Clone, Copy, Debug, PartialEq, Eq)]
pub enum Rule {
    /// A control stream begins with SETTINGS.
    MissingSettings,
    /// SETTINGS is sent once.
    RepeatedSettings,
    /// A control stream has no PUSH_PROMISE.
    PromiseOnControlStream,
    /// HEADERS comes before DATA.
    EarlyData,
    /// No DATA comes after trailers.
    LateData,
    /// No HEADERS comes after trailers.
    LateHeaders,
    /// Only DATA follows the header section of a CONNECT.
    InTunnel,
    /// Some frames belong on the control stream.
    ControlFrame,
    /// A client sends no PUSH_PROMISE.
    PromiseOfClient,
    /// GOAWAY, MAX_PUSH_ID and CANCEL_PUSH contain one number.
    BadIdFrame,
    /// PRIORITY_UPDATE contains an ID.
    ShortPriority,
    /// PUSH_PROMISE contains a push ID.
    ShortPromise,
    /// The ID of GOAWAY does not grow.
    GrowingGoaway,
    /// The ID of MAX_PUSH_ID does not shrink.
    ShrinkingMaxPushId,
    /// A priority of a request names the stream of one.
    PriorityOfNoRequest,
    /// A control stream does not end.
    ClosedControlStream,
    /// A stream of QPACK does not end.
    ClosedQpackStream,
    /// A setting occurs once.
    RepeatedSetting,
    /// Some settings are 0 or 1.
    BadSetting,
    /// Nothing follows a capsule that closes the session.
    DataAfterClose,
    /// A capsule of flow control contains its integers, and one that drains a session nothing.
    BadCapsuleValue,
    /// A field name has no upper-case letters.
    UpperCaseName,
    /// A field name is a token.
    BadName,
    /// A field value has no control characters but tabs.
    BadValue,
    /// A field value has no blanks at its ends.
    BlankValue,
    /// No field is specific to a connection of HTTP/1.1.
    ConnectionField,
    /// The field `te` is `trailers`, and in a request.
    BadTe,
    /// Pseudo-header fields come first.
    LatePseudoHeader,
    /// A pseudo-header field is defined.
    UnknownPseudoHeader,
    /// A pseudo-header field occurs once.
    RepeatedPseudoHeader,
    /// Trailers have no pseudo-header fields.
    PseudoHeaderInTrailers,
    /// A request has no `:status`.
    StatusInRequest,
    /// A response has no pseudo-header field but `:status`.
    RequestInResponse,
    /// A request has `:method`.
    MissingMethod,
    /// A request has `:scheme`, unless it is a CONNECT without `:protocol`.
    MissingScheme,
    /// A request has `:path`, unless it is a CONNECT without `:protocol`.
    MissingPath,
    /// A response has `:status`.
    MissingStatus,
    /// A CONNECT, or a request with the scheme `http` or `https`, has an authority.
    MissingAuthority,
    /// A CONNECT without `:protocol` has neither `:scheme` nor `:path`.
    TargetOfConnect,
    /// Only a CONNECT has `:protocol`.
    ProtocolWithoutConnect,
    /// `:method` is a token.
    BadMethod,
    /// `:scheme` is one, and that of a session is `https`.
    BadScheme,
    /// `:path` is a path, or `*` for OPTIONS.
    BadPath,
    /// The authority is a host and maybe a port, and `host` is the same.
    BadAuthority,
    /// `:protocol` is a token.
    BadProtocol,
    /// `content-length` is a number, and occurs once or with the same value.
    BadContentLength,
    /// A session has no fields of content.
    ContentField,
    /// `:status` is a number of three digits, and not 101.
    BadStatus,
    /// A session is not accepted with the status 204, 205 or 206.
    StatusOfSession,
    /// A message has a header section.
    NoRequest,
    /// A response is more than interim ones.
    NoResponse,
    /// The content is no longer than announced.
    LongContent,
    /// The content is no shorter than announced.
    ShortContent,
    /// A hint: the bytes begin as those of a control stream.
    LikeControlStream,
    /// A hint: the bytes read as a request or a response.
    LikeMessage,
    /// A hint: the bytes are a response.
    LikeResponse,
    /// A hint: the bytes are a request.
    LikeRequest,
    /// A hint: DATA frames read as capsules.
    LikeCapsules,
}

impl Rule {
    /// Returns whether this is a hint, and no rule is broken.
    pub fn is_hint(self) -> bool
        ensures { result ≡ is_hint self }
    {
        matches!(
            self,
            Rule::LikeControlStream
                | Rule::LikeMessage
                | Rule::LikeResponse
                | Rule::LikeRequest
                | Rule::LikeCapsules
        )
    }

    /// Returns the error code that the standard has for a breach. `None` for a hint.
    pub fn code(self) -> Option<Code> {
        match self {
            Rule::MissingSettings => Some(Code::H3_MISSING_SETTINGS),
            Rule::RepeatedSettings
            | Rule::PromiseOnControlStream
            | Rule::EarlyData
            | Rule::LateData
            | Rule::LateHeaders
            | Rule::InTunnel
            | Rule::ControlFrame
            | Rule::PromiseOfClient => Some(Code::H3_FRAME_UNEXPECTED),
            Rule::BadIdFrame | Rule::ShortPriority | Rule::ShortPromise => {
                Some(Code::H3_FRAME_ERROR)
            }
            Rule::GrowingGoaway | Rule::ShrinkingMaxPushId | Rule::PriorityOfNoRequest => {
                Some(Code::H3_ID_ERROR)
            }
            Rule::ClosedControlStream | Rule::ClosedQpackStream => {
                Some(Code::H3_CLOSED_CRITICAL_STREAM)
            }
            Rule::RepeatedSetting | Rule::BadSetting => Some(Code::H3_SETTINGS_ERROR),
            Rule::NoRequest => Some(Code::H3_REQUEST_INCOMPLETE),
            Rule::LikeControlStream
            | Rule::LikeMessage
            | Rule::LikeResponse
            | Rule::LikeRequest
            | Rule::LikeCapsules => None,
            _ => Some(Code::H3_MESSAGE_ERROR),
        }
    }

    /// Returns the breach, or the hint, as one sentence that cites the section of the standard.
    pub fn why(self) -> &'static str {
        match self {
            Rule::MissingSettings => "the first frame is not SETTINGS (RFC 9114, section 6.2.1)",
            Rule::RepeatedSettings => "SETTINGS is sent once (RFC 9114, section 7.2.4)",
            Rule::PromiseOnControlStream => {
                "a control stream has no PUSH_PROMISE (RFC 9114, section 7.2.5)"
            }
            Rule::EarlyData => "DATA comes before HEADERS (RFC 9114, section 4.1)",
            Rule::LateData => "DATA comes after trailers (RFC 9114, section 4.1)",
            Rule::LateHeaders => "HEADERS comes after trailers (RFC 9114, section 4.1)",
            Rule::InTunnel => {
                "only DATA follows a CONNECT, or the response that accepts it (RFC 9114, section 4.4)"
            }
            Rule::ControlFrame => {
                "the frame belongs on the control stream (RFC 9114, section 7, table 1)"
            }
            Rule::PromiseOfClient => "a client sends no PUSH_PROMISE (RFC 9114, section 7.2.5)",
            _ => self.why_of_id(),
        }
    }

    /// Returns the same for a rule of the IDs in frames.
    fn why_of_id(self) -> &'static str {
        match self {
            Rule::BadIdFrame => {
                "the payload is not one variable-length integer (RFC 9114, sections 7.1 and 7.2)"
            }
            Rule::ShortPriority => {
                "the payload ends within the ID (RFC 9114, section 7.1; RFC 9218, section 7.2)"
            }
            Rule::ShortPromise => {
                "the payload ends within the push ID (RFC 9114, sections 7.1 and 7.2.5)"
            }
            Rule::GrowingGoaway => {
                "the ID is greater than that of the last GOAWAY (RFC 9114, section 5.2)"
            }
            Rule::ShrinkingMaxPushId => {
                "the ID is less than that of the last MAX_PUSH_ID (RFC 9114, section 7.2.7)"
            }
            Rule::PriorityOfNoRequest => {
                "the ID is not that of a request stream (RFC 9218, section 7.2)"
            }
            _ => self.why_of_stream(),
        }
    }

    /// Returns the same for a rule of how a stream ends, of settings and of capsules.
    fn why_of_stream(self) -> &'static str {
        match self {
            Rule::ClosedControlStream => "the control stream ends (RFC 9114, section 6.2.1)",
            Rule::ClosedQpackStream => {
                "the encoder or decoder stream ends (RFC 9204, section 4.2)"
            }
            Rule::RepeatedSetting => "a setting is repeated (RFC 9114, section 7.2.4)",
            Rule::BadSetting => {
                "a setting is neither 0 nor 1 (RFC 9220, section 3; RFC 9297, section 2.1.1)"
            }
            Rule::DataAfterClose => {
                "bytes follow the close of the session (draft-ietf-webtrans-http3-02, section 5)"
            }
            Rule::BadCapsuleValue => {
                "the value of a capsule is not that of its type (RFC 9297, section 3.3)"
            }
            _ => self.why_of_field(),
        }
    }

    /// Returns the same for a rule of the names and values of fields.
    fn why_of_field(self) -> &'static str {
        match self {
            Rule::UpperCaseName => "a field name has an upper-case letter (RFC 9114, section 4.2)",
            Rule::BadName => "a field name has a forbidden character (RFC 9114, section 10.3)",
            Rule::BadValue => "a field value has a control character (RFC 9114, section 10.3)",
            Rule::BlankValue => {
                "a field value begins or ends with a blank (RFC 9110, section 5.5)"
            }
            Rule::ConnectionField => "a field is specific to a connection (RFC 9114, section 4.2)",
            Rule::BadTe => { "te is not in a request, or not trailers (RFC 9114, section 4.2)" }
            _ => self.why_of_pseudo_header(),
        }
    }

    /// Returns the same for a rule of where pseudo-header fields are, and which.
    fn why_of_pseudo_header(self) -> &'static str {
        match self {
            Rule::LatePseudoHeader => {
                "a pseudo-header comes after a field (RFC 9114, section 4.3)"
            }
            Rule::UnknownPseudoHeader => {
                "a pseudo-header is not defined (RFC 9114, section 4.3)"
            }
            Rule::RepeatedPseudoHeader => { "a pseudo-header is repeated (RFC 9114, section 4.3)" }
            Rule::PseudoHeaderInTrailers => {
                "a trailer section has a pseudo-header (RFC 9114, section 4.3)"
            }
            Rule::StatusInRequest => "a request has :status (RFC 9114, section 4.3)",
            Rule::RequestInResponse => {
                "a response has a pseudo-header of requests (RFC 9114, section 4.3)"
            }
            Rule::MissingMethod => ":method is missing (RFC 9114, section 4.3.1)",
            Rule::MissingScheme => ":scheme is missing (RFC 9114, section 4.3.1)",
            Rule::MissingPath => ":path is missing (RFC 9114, section 4.3.1)",
            Rule::MissingStatus => ":status is missing (RFC 9114, section 4.3.2)",
            Rule::MissingAuthority => {
                "there is no :authority or host, or it is empty (RFC 9114, sections 4.3.1 and 4.4)"
            }
            _ => self.why_of_request(),
        }
    }

    /// Returns the same for a rule of the values of pseudo-header fields of a request.
    fn why_of_request(self) -> &'static str {
        match self {
            Rule::TargetOfConnect => {
                ":scheme or :path in a CONNECT without :protocol (RFC 9114, section 4.4)"
            }
            Rule::ProtocolWithoutConnect => {
                ":protocol without the method CONNECT (RFC 8441, section 4)"
            }
            Rule::BadMethod => ":method is not a token (RFC 9110, section 9.1)",
            Rule::BadScheme => {
                ":scheme is not a scheme, or not https in a request for a session (RFC 3986, \
                 section 3.1; draft-ietf-webtrans-http3-02, section 3.3)"
            }
            Rule::BadPath => ":path is empty or invalid (RFC 9114, section 4.3.1)",
            Rule::BadAuthority => {
                "the authority is invalid, or :authority and host differ (RFC 9114, sections 4.3.1 \
                 and 4.4; RFC 9110, section 7.2)"
            }
            Rule::BadProtocol => ":protocol is not a token (RFC 8441, section 4)",
            _ => self.why_of_content(),
        }
    }

    /// Returns the same for a rule of content and of responses.
    fn why_of_content(self) -> &'static str {
        match self {
            Rule::BadContentLength => {
                "content-length is not a number, or there are two that differ (RFC 9110, section 8.6)"
            }
            Rule::ContentField => {
                "a session's message has content-length or content-type (RFC 9297, section 3.2)"
            }
            Rule::BadStatus => {
                ":status is not of three digits from 100 on, or is 101 (RFC 9110, section 15; RFC \
                 9114, section 4.5)"
            }
            Rule::StatusOfSession => {
                "a session is accepted with status 204, 205 or 206 (RFC 9297, section 3.2)"
            }
            Rule::NoRequest => "the stream ends without a request (RFC 9114, section 4.1)",
            Rule::NoResponse => "the stream ends without a final response (RFC 9114, section 4.1)",
            Rule::LongContent => {
                "the content is longer than content-length (RFC 9114, section 4.1.2)"
            }
            Rule::ShortContent => {
                "the content is shorter than content-length (RFC 9114, section 4.1.2)"
            }
            _ => self.why_of_hint(),
        }
    }

    /// Returns a hint as a sentence.
    fn why_of_hint(self) -> &'static str {
        match self {
            Rule::LikeControlStream => {
                "the bytes begin as a control stream does, whose KIND is uni (RFC 9114, section 6.2.1)"
            }
            Rule::LikeMessage => {
                "the bytes also read as a request or a response, whose KIND is bi or response"
            }
            Rule::LikeResponse => "the bytes are a response, whose KIND is response",
            Rule::LikeRequest => "the bytes are a request, whose KIND is bi",
            _ => { "the payload reads as capsules, which KIND session-response shows" }
        }
    }
}
