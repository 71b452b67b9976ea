//! What an endpoint finds in what its peer sent.
ghost use Rattle.std.specs.Prelude.{◌≡◌, IfOk};
ghost use Rattle.wt_inspect_verdicts.specs.Findings.{Says, SaysClosed, SaysEnd, code_in, ends_connection, found_at_end, found_by_reset, found_on_stream, is_fault, place_in};

use crate::words::{fault_words, malformed_words};
use std::alloc::{AllocError, Global};
use vesgrauf::event::{Event, EventKind, Failure, Rule, Why};
use vesgrauf::{Code, Fault, Malformed};
use wtp_connection::fault::Fault as StreamsFault;

/// Where something was found.
#[derive(Clone, Copy, Debug, PartialEq, Eq)]
pub enum Place {
    /// On the stream with this ID.
    Stream(u64),
    /// In the datagram that is the piece of the connection with this index.
    Datagram(usize),
}

/// What was found.
#[derive(Drop)]
pub enum Finding {
    /// An error of the connection, which the endpoint would close. Nothing was judged after it.
    Connection(Fault),
    /// An error of the stream, which the endpoint would reset.
    Stream(Fault),
    /// The message is malformed, by this rule (RFC 9114, section 4.1.2).
    Malformed(Malformed),
    /// A datagram is for this stream, whose request has no use for datagrams: the endpoint would reset
    /// the stream (RFC 9297, section 2).
    NoDatagrams,
    /// The endpoint would not process the request, which is not below the ID of its GOAWAY (RFC 9114,
    /// section 5.2). That is no error of the peer.
    Rejected(Fault),
    /// A field section is larger than the endpoint allows (RFC 9114, section 4.2.2).
    TooLarge,
    /// A field section needs so many insertions into the dynamic table, and there were fewer.
    Blocked(u64),
    /// The session with this ID, to which the stream belongs, did not come.
    NoSession(u64),
    /// SETTINGS, for which a request for a session waits, did not come.
    NoSettings,
    /// The session of this stream was closed with this code and this reason, which is UTF-8.
    Closed(u32, Vec<u8>),
    /// The session of this stream ended by an error.
    Lost,
}

/// What was found, and where.
#[derive(Drop)]
pub struct Verdict {
    /// Where it was found.
    pub place: Place,
    /// What it is.
    pub finding: Finding,
}

impl Finding {
    /// Returns whether the peer broke a rule.
    pub fn is_fault(&self) -> bool
        ensures { result ≡ is_fault self.now }
    {
        match self {
            Finding::Connection(_)
            | Finding::Stream(_)
            | Finding::Malformed(_)
            | Finding::NoDatagrams => true,
            _ => false,
        }
    }

    /// Returns the name of what was found.
    pub fn name(&self) -> &'static str {
        match self {
            Finding::Connection(_) => "connection error",
            Finding::Stream(_) | Finding::NoDatagrams => "stream error",
            Finding::Malformed(_) => "malformed message",
            Finding::Rejected(_) => "rejected request",
            Finding::TooLarge => "large section",
            Finding::Blocked(_) => "blocked section",
            Finding::NoSession(_) => "no session",
            Finding::NoSettings => "no settings",
            Finding::Closed(_, _) => "closed session",
            Finding::Lost => "lost session",
        }
    }

    /// Returns what the endpoint would do.
    pub fn action(&self) -> &'static str {
        match self {
            Finding::Connection(_) => "close the connection",
            Finding::Stream(_) | Finding::NoDatagrams => "reset the stream",
            Finding::Malformed(_) => "refuse the message",
            Finding::Rejected(_) => "reject the request",
            Finding::TooLarge => "skip a field section",
            Finding::Blocked(_) | Finding::NoSession(_) | Finding::NoSettings => "wait",
            Finding::Closed(_, _) | Finding::Lost => "end the session",
        }
    }

    /// Returns whether the endpoint would close the connection.
    pub fn ends_connection(&self) -> bool
        ensures { result ≡ ends_connection self.now }
    {
        match self {
            Finding::Connection(_) => true,
            _ => false,
        }
    }

    /// Returns the error code with which the endpoint would close the connection or reset the stream,
    /// or `None` if it would not.
    pub fn code(&self) -> Option<Code>
        ensures { result ≡ code_in self.now }
    {
        match self {
            Finding::Connection(fault) | Finding::Stream(fault) | Finding::Rejected(fault) => {
                Some(fault.code())
            }
            Finding::Malformed(_) => Some(Code::H3_MESSAGE_ERROR),
            Finding::NoDatagrams => Some(Code::H3_DATAGRAM_ERROR),
            _ => None,
        }
    }

    /// Returns the reason, in words.
    ///
    /// Returns [`AllocError`] if allocation fails.
    pub fn why(&self, alloc: Global) -> Result<String, AllocError> {
        match self {
            Finding::Connection(fault) | Finding::Stream(fault) | Finding::Rejected(fault) => {
                fault_words(alloc, *fault)
            }
            Finding::Malformed(rule) => malformed_words(alloc, *rule),
            Finding::NoDatagrams => String::from_str(
                alloc,
                "a datagram is for a request that has no use for it (RFC 9297, section 2)",
            ),
            Finding::TooLarge => String::from_str(
                alloc,
                "a field section is larger than SETTINGS allow (RFC 9114, section 4.2.2)",
            ),
            Finding::Blocked(required) => format!(in alloc;
                "a field section needs {required} insertions into the dynamic table, and there were fewer (RFC 9204, section 2.1.2)"
            ),
            Finding::NoSession(session) => format!(in alloc;
                "session {session}, to which the stream belongs, did not come (draft-ietf-webtrans-http3-02, section 4.5)"
            ),
            Finding::NoSettings => String::from_str(
                alloc,
                "a request for a session came, and no SETTINGS (draft-ietf-webtrans-http3-02, section 3.1)",
            ),
            Finding::Closed(code, _) => format!(in alloc;
                "the session was closed with code {code}"
            ),
            Finding::Lost => String::from_str(alloc, "the session ended by an error"),
        }
    }

    /// Returns the reason that the peer gave, as it closed a session.
    pub fn reason(&self) -> Option<&[u8]> {
        match self {
            Finding::Closed(_, reason) if !reason.is_empty() => Some(reason.as_slice()),
            _ => None,
        }
    }
}

/// Returns what an event says of the peer, if it says something. `is_open`: a session was opened on its
/// stream. `failure` is the rule that ended the connection. A session that was closed without a code and
/// a reason is none.
///
/// Returns [`AllocError`] if allocation fails.
pub(crate) fn finding_of(
    alloc: Global,
    event: &Event<'_>,
    is_open: bool,
    failure: Option<Failure>,
) -> Result<Option<Finding>, AllocError>
    ensures { IfOk result (λ said. Says event.now.kind «is_open» failure said) }
{
    match &event.kind {
        EventKind::ConnectionClosed(_, _) => match failure {
            Some(failure) => Ok(Some(found_at_end(failure.rule))),
            None => Ok(None),
        },
        EventKind::Failed(failure) => Ok(Some(found_on_stream(failure.rule))),
        EventKind::Closed(why) if is_open => end_in(alloc, why),
        _ => Ok(None),
    }
}

/// Returns where that was found, if the event is of what came from a place.
pub(crate) fn place_of(from: Place, event: &Event<'_>, failure: Option<Failure>) -> Place
    ensures { result ≡ place_in from event.now failure }
{
    match (&event.kind, failure) {
        (EventKind::ConnectionClosed(_, _), Some(failure)) => match failure.stream {
            Some(id) => Place::Stream(id),
            None => from,
        },
        _ => Place::Stream(event.stream),
    }
}

/// Returns what is found where a rule was violated on a stream. A request that is not processed violates
/// none.
pub(crate) fn found_on_stream(rule: Rule) -> Finding
    ensures { result ≡ found_on_stream rule }
{
    match rule {
        Rule::Fault(Fault::Rejected) => Finding::Rejected(Fault::Rejected),
        Rule::Fault(Fault::Streams(StreamsFault::Datagram)) => Finding::NoDatagrams,
        Rule::Fault(fault) => Finding::Stream(fault),
        Rule::Malformed(rule) => Finding::Malformed(rule),
        Rule::TooLarge => Finding::TooLarge,
    }
}

/// Returns what is found where the violation of a rule ended the connection.
fn found_at_end(rule: Rule) -> Finding
    ensures { result ≡ found_at_end rule }
{
    match rule {
        Rule::Fault(fault) => Finding::Connection(fault),
        rule => found_on_stream(rule),
    }
}

/// Returns what it says of the peer that a stream is reset with this code, if it says something. `is_closed`: the
/// peer had closed the session of the stream. No event tells of bytes that follow the close.
pub(crate) fn found_by_reset(code: u64, is_closed: bool) -> Option<Finding>
    ensures { result ≡ found_by_reset code «is_closed» }
{
    let fault = Fault::Capsule;
    if is_closed && code == fault.code().number().into_inner() {
        Some(Finding::Stream(fault))
    } else {
        None
    }
}

/// Returns how a session ended, whose stream is over for this reason, if the peer ended it.
fn end_in(alloc: Global, why: &Why) -> Result<Option<Finding>, AllocError>
    ensures { IfOk result (λ said. SaysEnd why.now said) }
{
    match why {
        Why::Session(close) => close_in(alloc, close.code(), close.reason()),
        Why::SessionGone | Why::Malformed(_) | Why::TooLarge | Why::Fault(_) => {
            Ok(Some(Finding::Lost))
        }
        _ => Ok(None),
    }
}

/// Returns the close of a session with this code and this reason, unless there is neither.
fn close_in(alloc: Global, code: u32, reason: &[u8]) -> Result<Option<Finding>, AllocError>
    ensures { IfOk result (λ said. SaysClosed code reason.now said) }
{
    if code == 0 && reason.is_empty() {
        return Ok(None);
    }
    let mut text = Vec::new(alloc);
    text.extend_from_slice(reason)?;
    Ok(Some(Finding::Closed(code, text)))
}
