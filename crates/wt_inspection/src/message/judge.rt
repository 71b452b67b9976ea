//! Which messages are malformed, by the rules of `wtp_messages` (RFC 9114, section 4.1.2).

use std::alloc::{AllocError, Global};
use wt_inspection_model::item::Rule;
use wtp_fields::fields::{FieldList, FieldSectionError};
use wtp_messages::malformed::Malformed;
use wtp_messages::message::{Message, Role};
use wtp_messages::response::Asked;
use wtp_wire::rules::StreamRole;

/// The message of a stream, as far as it was read.
#[derive(Clone, Copy)]
pub(crate) struct Judge {
    /// `None` once the message is malformed, or a section of it could not be read.
    message: Option<Message>,
    is_request: bool,
    /// Whether a DATA frame with bytes was read.
    saw_content: bool,
}

impl Judge {
    /// Creates the judge of a message on a stream of this role.
    pub(crate) fn new(role: StreamRole) -> Self {
        let (role, is_request) = match role {
            StreamRole::BiLocal => (Role::Response(Asked::Other), false),
            StreamRole::Session => (Role::Response(Asked::Session), false),
            StreamRole::BiRemote | StreamRole::UniRemote => (Role::Request(true), true),
        };
        Judge {
            message: Some(Message::new(role)),
            is_request,
            saw_content: false,
        }
    }

    /// Takes no more of the message.
    pub(crate) fn stop(&mut self) {
        self.message = None;
    }

    /// Takes the payload of a HEADERS frame. Returns the rule that it breaks. A section that needs
    /// the dynamic table is not judged.
    pub(crate) fn section(
        &mut self,
        alloc: Global,
        payload: &[u8],
    ) -> Result<Option<Rule>, AllocError> {
        let Some(mut message) = self.message else {
            return Ok(None);
        };
        let list = match FieldList::decode(alloc, payload, u64::MAX) {
            Ok(list) => list,
            Err(FieldSectionError::Memory) => return Err(AllocError),
            Err(_) => {
                self.message = None;
                return Ok(None);
            }
        };
        match message.section(&list) {
            Ok(_) => {
                self.message = Some(message);
                Ok(None)
            }
            Err(broken) => {
                self.message = None;
                Ok(Some(rule_of(broken)))
            }
        }
    }

    /// Takes a DATA frame with a payload of this length. Returns the rule that it breaks.
    pub(crate) fn data(&mut self, len: u64) -> Option<Rule> {
        let Some(mut message) = self.message else {
            return None;
        };
        if len > 0 {
            self.saw_content = true;
        }
        match message.data(len) {
            Ok(()) => {
                self.message = Some(message);
                None
            }
            Err(broken) => {
                self.message = None;
                Some(rule_of(broken))
            }
        }
    }

    /// Returns the rule that the end of the stream breaks. A response without content may be one to
    /// HEAD, so its length is not judged.
    pub(crate) fn finish(&self) -> Option<Rule> {
        let Some(message) = self.message else {
            return None;
        };
        match message.finish() {
            Ok(()) => None,
            Err(Malformed::MissingHead) if self.is_request => Some(Rule::NoRequest),
            Err(Malformed::MissingHead) => Some(Rule::NoResponse),
            Err(_) if self.is_request || self.saw_content => Some(Rule::ShortContent),
            Err(_) => None,
        }
    }
}

/// Returns the rule that a malformed message breaks.
fn rule_of(broken: Malformed) -> Rule {
    match broken {
        Malformed::InvalidName => Rule::BadName,
        Malformed::InvalidValue => Rule::BadValue,
        Malformed::ConnectionField => Rule::ConnectionField,
        Malformed::InvalidTe => Rule::BadTe,
        Malformed::UnknownPseudoHeader => Rule::UnknownPseudoHeader,
        Malformed::LatePseudoHeader => Rule::LatePseudoHeader,
        Malformed::RepeatedPseudoHeader => Rule::RepeatedPseudoHeader,
        Malformed::InvalidContentLength => Rule::BadContentLength,
        Malformed::MissingMethod => Rule::MissingMethod,
        Malformed::InvalidMethod => Rule::BadMethod,
        Malformed::MissingScheme => Rule::MissingScheme,
        Malformed::InvalidScheme => Rule::BadScheme,
        Malformed::MissingPath => Rule::MissingPath,
        Malformed::InvalidPath => Rule::BadPath,
        Malformed::MissingAuthority => Rule::MissingAuthority,
        Malformed::InvalidAuthority => Rule::BadAuthority,
        Malformed::ConnectWithTarget => Rule::TargetOfConnect,
        Malformed::UnexpectedProtocol => Rule::ProtocolWithoutConnect,
        Malformed::InvalidProtocol => Rule::BadProtocol,
        Malformed::ContentField => Rule::ContentField,
        Malformed::MissingStatus => Rule::MissingStatus,
        Malformed::InvalidStatus => Rule::BadStatus,
        Malformed::UnexpectedStatus => Rule::StatusOfSession,
        Malformed::MissingHead => Rule::NoRequest,
        Malformed::ContentTooLong => Rule::LongContent,
        Malformed::ContentTooShort => Rule::ShortContent,
    }
}
