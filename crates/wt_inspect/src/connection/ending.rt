//! How a session of a connection ended.

ghost use Rattle.std.specs.Prelude.{◌≡◌, ◌||◌, List, codes, option_map};
ghost use Rattle.wt_inspect.specs.SessionsShown.{ending_of, ending_without, has_close, head_of};
ghost use Rattle.wt_inspect.specs.SessionsShown.{is_complete, is_refusal, is_refused, is_whole};
ghost use Rattle.wt_inspect.specs.SessionsShown.{value_by, value_in};
ghost use Rattle.wt_inspection.specs.SessionSections.{starts_with_two};

use super::summary::{Summary, Told};
use wt_inspection::End;
use wt_inspection::item::Line;

/// How a session ended.
#[derive(Clone, Copy, Debug, PartialEq, Eq)]
pub(super) enum Ending {
    /// The final response refuses it.
    Refused,
    /// One end closed it, or each of them.
    Closed,
    /// Its stream is open.
    Open,
    /// The client ended its stream without a close.
    Client,
    /// The server ended its stream without a close.
    Server,
    /// Both ended its stream without a close.
    Both,
    /// That was not recorded.
    Unknown,
}

impl Summary {
    /// Returns how the session ended. `is_open` says whether its stream is still open.
    pub(super) fn ending(&self, is_open: bool) -> Ending
        ensures { result ≡ ending_of «is_open» self.now }
    {
        if self.is_refused() {
            return Ending::Refused;
        }
        if self.is_closed() {
            return Ending::Closed;
        }
        if is_open {
            return Ending::Open;
        }
        ending_without(is_whole(&self.client), is_whole(&self.server))
    }

    /// Returns whether an end closed the session.
    fn is_closed(&self) -> bool
        ensures { result ≡ (has_close self.now.client || has_close self.now.server) }
    {
        has_close(&self.client) || has_close(&self.server)
    }

    /// Returns whether the final response refuses the session: its status does not begin with 2 (RFC
    /// 9110, section 15.3).
    fn is_refused(&self) -> bool
        ensures { result ≡ is_refused self.now }
    {
        is_refusal(self.status())
    }

    /// Returns the status of the final response, if it was recorded.
    pub(super) fn status(&self) -> Option<&[u8]>
        ensures { option_map (λ value. value.now) result
            ≡ value_by (codes ":status") (head_of self.now.server) }
    {
        value_by(&self.server, b":status")
    }

    /// Returns the path of the request, if it was recorded.
    pub(super) fn path(&self) -> Option<&[u8]>
        ensures { option_map (λ value. value.now) result
            ≡ value_by (codes ":path") (head_of self.now.client) }
    {
        value_by(&self.client, b":path")
    }

    /// Returns the authority of the request, if it was recorded.
    pub(super) fn authority(&self) -> Option<&[u8]>
        ensures { option_map (λ value. value.now) result
            ≡ value_by (codes ":authority") (head_of self.now.client) }
    {
        value_by(&self.client, b":authority")
    }
}

/// Returns whether a status is one of those that refuse.
fn is_refusal(status: Option<&[u8]>) -> bool
    ensures { result ≡ is_refusal (option_map (λ value. value.now) status.entry) }
{
    match status {
        Some(value) => !starts_with_two(value),
        None => false,
    }
}

/// Returns whether the first byte is the digit 2.
fn starts_with_two(value: &[u8]) -> bool
    ensures { result ≡ starts_with_two value.now }
{
    match value.first() {
        Some(&first) => first == b'2',
        None => false,
    }
}

/// Returns the value of the first line with this name of the header section that an end sent.
fn value_by<'a>(told: &'a Option<Told>, name: &[u8]) -> Option<&'a [u8]>
    ensures { option_map (λ value. value.now) result ≡ value_by name.now (head_of told.now) }
{
    match told {
        Some(told) => match &told.said.head {
            Some(section) => value_in(section.lines.as_slice(), name),
            None => None,
        },
        None => None,
    }
}

/// Returns the value of the first line with this name.
fn value_in<'a>(lines: &'a [Line], name: &[u8]) -> Option<&'a [u8]>
    ensures { option_map (λ value. value.now) result ≡ value_in name.now lines.now }
{
    for line in lines {
        if line.name.as_slice() == name {
            return Some(line.value.as_slice());
        }
    }
    None
}

/// Returns whether an end closed the session.
fn has_close(told: &Option<Told>) -> bool
    ensures { result ≡ has_close told.now }
{
    match told {
        Some(told) => told.said.close.is_some(),
        None => false,
    }
}

/// Returns whether an end ended its direction of the stream after whole items.
fn is_whole(told: &Option<Told>) -> bool
    ensures { result ≡ is_whole told.now }
{
    match told {
        Some(told) => is_complete(told.end),
        None => false,
    }
}

/// Returns whether bytes end after whole items.
fn is_complete(end: End) -> bool
    ensures { result ≡ is_complete end }
{
    match end {
        End::Complete => true,
        End::Cut(_) | End::Fault(_) => false,
    }
}

/// Returns which end ended the stream without a close.
fn ending_without(client: bool, server: bool) -> Ending
    ensures { result ≡ ending_without «client» «server» }
{
    match (client, server) {
        (true, true) => Ending::Both,
        (true, false) => Ending::Client,
        (false, true) => Ending::Server,
        (false, false) => Ending::Unknown,
    }
}
