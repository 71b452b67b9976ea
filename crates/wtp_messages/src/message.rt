//! A message on its stream: header sections, content and trailers (RFC 9114, section 4.1).
ghost use Rattle.std.specs.Prelude.{◌≡◌, true, false, not, MatchResult, OnOk, OnErr};
ghost use Rattle.wtp_messages.specs.Content.{fits, left_after};
ghost use Rattle.wtp_messages.specs.Message.{message_of, is_head_stage, end_of, RequestComes, ResponseComes, TrailersCome, SectionComes};

pub mod words;

use crate::content::Content;
use crate::malformed::Malformed;
use crate::request::Request;
use crate::response::{Asked, Response};
use crate::section::check_trailers;
use wtp_fields::fields::FieldList;

/// What a message is.
#[derive(Clone, Copy, Debug, PartialEq, Eq)]
pub enum Role {
    /// A request, at a server that allows extended CONNECT or does not (RFC 8441, section 3).
    Request(bool),
    /// The response to a request that asked for this.
    Response(Asked),
}

/// How much of a message came.
#[derive(Clone, Copy, Debug, PartialEq, Eq)]
enum Stage {
    /// No header section but those of interim responses.
    Head,
    /// The header section, and any part of the content.
    Body,
    /// The trailer section.
    End,
}

/// A field section of a message.
#[derive(Clone, Copy, Debug, PartialEq, Eq)]
pub enum Section<'a> {
    /// The header section of a request.
    Request(Request<'a>),
    /// That of an interim response. Another response follows.
    Interim(Response),
    /// That of the final response.
    Response(Response),
    /// The trailer section.
    Trailers,
}

/// A message that is being received. It has no bytes of it.
///
/// The order of its frames is checked by `wtp_frames`, and each error of a frame is reported before
/// one of the message. After an error of the message its stream is over.
#[derive(Clone, Copy, Debug, PartialEq, Eq)]
pub struct Message {
    role: Role,
    stage: Stage,
    /// The content that is still to come; none before the header section.
    content: Content,
}

impl Message {
    /// Creates a message of which nothing has come.
    pub fn new(role: Role) -> Self
        ensures { result ≡ message_of role }
    {
        Message {
            role,
            stage: Stage::Head,
            content: Content::new(Some(0)),
        }
    }

    /// Takes the next field section: the header section of the request or the response, or after
    /// it the trailers.
    ///
    /// Returns a rule that the section breaks, if it breaks one, and changes nothing then. Of several
    /// broken rules it may be any.
    pub fn section<'a>(&mut self, list: &'a FieldList) -> Result<Section<'a>, Malformed>
        ensures { SectionComes self.old.stage self.old list.now result self.new }
    {
        match self.stage {
            Stage::Head => match self.role {
                Role::Request(extended) => self.request(list, extended),
                Role::Response(asked) => self.response(list, asked),
            },
            Stage::Body | Stage::End => self.trailers(list),
        }
    }

    /// Takes the header section of a request.
    fn request<'a>(&mut self, list: &'a FieldList, extended: bool) -> Result<Section<'a>, Malformed>
        ensures { RequestComes extended self.old list.now result self.new }
    {
        match Request::read(list, extended) {
            Ok(request) => {
                self.stage = Stage::Body;
                self.content = request.content;
                Ok(Section::Request(request))
            }
            Err(rule) => Err(rule),
        }
    }

    /// Takes the header section of a response.
    fn response<'a>(&mut self, list: &'a FieldList, asked: Asked) -> Result<Section<'a>, Malformed>
        ensures { ResponseComes asked self.old list.now result self.new }
    {
        match Response::read(list, asked) {
            Ok(response) if response.is_interim() => Ok(Section::Interim(response)),
            Ok(response) => {
                self.stage = Stage::Body;
                self.content = response.content;
                Ok(Section::Response(response))
            }
            Err(rule) => Err(rule),
        }
    }

    /// Takes the trailers.
    fn trailers<'a>(&mut self, list: &'a FieldList) -> Result<Section<'a>, Malformed>
        ensures { TrailersCome self.old list.now result self.new }
    {
        match check_trailers(list) {
            Ok(()) => {
                self.stage = Stage::End;
                Ok(Section::Trailers)
            }
            Err(rule) => Err(rule),
        }
    }

    /// Returns whether the header section of the request or the final response came.
    pub fn has_head(&self) -> bool
        ensures { result ≡ not (is_head_stage self.now.stage) }
    {
        self.stage != Stage::Head
    }

    /// Takes the head of a DATA frame with a payload of `len` bytes.
    ///
    /// Returns [`Malformed::ContentTooLong`], and changes nothing, if these are more bytes than the
    /// header section announced.
    pub fn data(&mut self, len: u64) -> Result<(), Malformed>
        ensures cases { MatchResult result (λ _. fits self.old.content.left len ≡ true)
            (λ e. (fits self.old.content.left len ≡ false) × (e ≡ Malformed.ContentTooLong)) }
        ensures added { OnOk result (self.new ≡ record self.old {
          content = record {
            left =
                left_after self.old.content.left len;
          };
        }) }
        ensures err { OnErr result (self.new ≡ self.old) }
    {
        self.content.add(len)
    }

    /// Checks that the message may end here.
    ///
    /// Returns [`Malformed::MissingHead`] before the header section of the request or the final
    /// response, and [`Malformed::ContentTooShort`] if more content was announced.
    pub fn finish(&self) -> Result<(), Malformed>
        ensures { result ≡ end_of self.now.stage self.now.content.left }
    {
        match self.stage {
            Stage::Head => Err(Malformed::MissingHead),
            Stage::Body | Stage::End => self.content.finish(),
        }
    }

    /// Returns how many bytes of content are still to come, or `None` if no length was announced.
    pub fn left(&self) -> Option<u64>
        ensures { result ≡ self.now.content.left }
    {
        self.content.left()
    }
}
