//! The state of one stream: of its frames, and of its message or its session.
ghost use Rattle.std.specs.Prelude.{◌≡◌, ◌↔◌, IsTrue};
ghost use Rattle.wtp_webtransport.specs.Streams.{stream_of, asking_stream, session_stream, with_session_id, with_head, with_session, connects, after_end, ended, answered, wait_for, waits_for as waits_for_is, is_request_head as is_request_head_is, is_held, is_done as is_done_is, due_by, GivesCapsule, EndsBetween};

pub mod codes;
mod pieces;
pub mod words;

use crate::capsules::{Capsules, SessionCapsule};
use crate::event::Waits;
use std::alloc::Global;
use wtp_connection::stream::Stream as Frames;
use wtp_messages::message::{Message, Role};
use wtp_messages::response::Asked;
use wtp_wire::capsule::CapsuleError;

/// How far the message of a stream went.
#[derive(Clone, Copy)]
pub(crate) enum Part {
    /// The stream has no message, or the message is over.
    NoMessage,
    /// A stream of a session, which is never the own stream of one.
    OfSession,
    /// A message before its header section.
    Head(Message),
    /// A message after its header section.
    Body(Message),
    /// A CONNECT request without an answer, and whether it asks for a session.
    Unanswered(bool, Message),
    /// A CONNECT request with a 2xx answer: only DATA may follow (RFC 9114, section 4.4).
    Tunnel,
    /// The own stream of an open session, whose content has capsules, and how many of the next bytes
    /// are content that was not read yet.
    Session(usize),
    /// That of a session that a capsule closed, and whether more content came.
    Closed(bool),
    /// That of a session that the end of the stream closed.
    Ending,
    /// That of a session after an error of the stream.
    Losing,
    /// That of a session after its last event.
    Past,
}

/// What a field section waits for.
#[derive(Clone, Copy)]
pub(crate) enum Delay {
    /// The SETTINGS of the peer.
    Settings,
    /// So many insertions into the dynamic table.
    Table(u64),
}

impl Delay {
    // Returns what the stream waits for.
    pub(crate) fn waits(self) -> Waits
        ensures { result ≡ wait_for self }
    {
        match self {
            Delay::Settings => Waits::Settings,
            Delay::Table(required) => Waits::Table(required),
        }
    }
}

/// What is next in the bytes of a stream, and was found there before.
#[derive(Clone, Copy)]
pub(crate) enum Unread {
    /// Nothing.
    Nothing,
    /// A field section of this size, which came too early, and what it waits for.
    Early(usize, Delay),
    /// A field section of this size, for which there was no memory.
    Section(usize),
}

/// What is to be returned before more of the stream is read.
#[derive(Clone, Copy)]
pub(crate) enum Due {
    /// Nothing.
    Nothing,
    /// That it waits for an answer.
    Wait,
    /// That something follows the capsule that closed the session.
    Spoiled,
    /// What so many bytes of the content of a session have.
    Content(usize),
    /// The end.
    End,
    /// That the session is lost.
    Lost,
}

/// The state of one stream. It holds no bytes of the stream but those of a capsule that is cut.
#[derive(Drop)]
pub struct Stream {
    /// The state of its frames.
    pub(crate) frames: Frames,
    /// The state of its message.
    pub(crate) part: Part,
    /// What the request asked for, if the message is the response to it.
    pub(crate) asked: Option<Asked>,
    /// What is next in the bytes.
    pub(crate) unread: Unread,
    /// The state of its capsules, if it asks for a session.
    pub(crate) capsules: Option<Capsules>,
}

impl Stream {
    // Creates the state of a stream without a message.
    pub(crate) fn new(frames: Frames) -> Self
        ensures { result ≡ stream_of frames }
    {
        Stream {
            frames,
            part: Part::NoMessage,
            asked: None,
            unread: Unread::Nothing,
            capsules: None,
        }
    }

    // Creates the state of the response to a request that asked for this.
    pub(crate) fn of_response(frames: Frames, asked: Asked) -> Self
        ensures { result ≡ asking_stream frames asked }
    {
        Stream {
            frames,
            part: Part::Head(Message::new(Role::Response(asked))),
            asked: Some(asked),
            unread: Unread::Nothing,
            capsules: None,
        }
    }

    /// Creates the state of the peer's half of a bidirectional stream that was opened here for this
    /// session. It has no header.
    pub fn of_session(session: u64) -> Self
        ensures { result ≡ session_stream session }
    {
        let mut stream = Stream::new(Frames::of_session(session));
        stream.belong();
        stream
    }

    // Begins a message in this role, if the stream has none.
    pub(crate) fn begin(&mut self, role: Role)
        ensures { self.new ≡ with_head self.old role }
    {
        if let Part::NoMessage = self.part {
            self.part = Part::Head(Message::new(role));
        }
    }

    // Says that the stream is one of a session, if it has no message.
    pub(crate) fn belong(&mut self)
        ensures { self.new ≡ with_session_id self.old }
    {
        if let Part::NoMessage = self.part {
            self.part = Part::OfSession;
        }
    }

    // Ends the message or the session.
    pub(crate) fn end(&mut self)
        ensures { self.new ≡ ended self.old }
    {
        self.part = self.part_after_end();
        self.unread = Unread::Nothing;
        self.capsules = None;
    }

    // Returns how far the stream is after its last event.
    pub(crate) fn part_after_end(&self) -> Part
        ensures { result ≡ after_end self.now.part }
    {
        match self.part {
            Part::Session(_) | Part::Closed(_) | Part::Ending | Part::Losing | Part::Past => {
                Part::Past
            }
            Part::OfSession => Part::OfSession,
            _ => Part::NoMessage,
        }
    }

    // Returns whether the stream has a session whose end was not returned.
    pub(crate) fn holds_session(&self) -> bool
        ensures { result ≡ is_held self.now.part }
    {
        matches!(self.part, Part::Session(_) | Part::Losing)
    }

    // Returns whether the last event of the stream was returned.
    pub(crate) fn is_done(&self) -> bool
        ensures { result ≡ is_done_is self.now.part self.now.frames }
    {
        match self.part {
            Part::Session(_) | Part::Ending | Part::Losing => false,
            _ => matches!(&self.frames, Frames::Incomplete | Frames::Over),
        }
    }

    // Returns what is to be returned before more of the stream is read. `empty`: no bytes came.
    pub(crate) fn due(&self, empty: bool) -> Due
        ensures { result ≡ due_by self.now.part empty }
    {
        match self.part {
            Part::Unanswered(_, _) => Due::Wait,
            Part::Closed(more) => {
                if more || !empty {
                    Due::Spoiled
                } else {
                    Due::Nothing
                }
            }
            Part::Session(size) => {
                if size > 0 {
                    Due::Content(size)
                } else {
                    Due::Nothing
                }
            }
            Part::Ending => Due::End,
            Part::Losing => Due::Lost,
            _ => Due::Nothing,
        }
    }

    // Takes bytes up to the end of one capsule from the content of the session.
    pub(crate) fn next_capsule(
        &mut self,
        bytes: &mut &[u8],
    ) -> Result<Option<SessionCapsule>, CapsuleError>
        ensures { GivesCapsule result self.old bytes.old.now self.new bytes.new.now }
    {
        match &mut self.capsules {
            Some(capsules) => capsules.next(bytes),
            None => Err(CapsuleError::TooLong),
        }
    }

    // Returns whether the content of the session may end here: no capsule has begun.
    pub(crate) fn is_between_capsules(&self) -> bool
        ensures { IsTrue result ↔ EndsBetween self.now.capsules }
    {
        match &self.capsules {
            Some(capsules) => capsules.is_between(),
            None => false,
        }
    }

    // Begins to read the capsules of a session.
    pub(crate) fn begin_capsules(&mut self, alloc: Global)
        ensures { self.new ≡ with_session self.old }
    {
        self.capsules = Some(Capsules::new(alloc));
    }

    // Goes on after a 2xx response to a CONNECT request: with a session, or with a tunnel.
    pub(crate) fn connect(&mut self, session: bool)
        ensures { self.new ≡ connects self.old session }
    {
        self.frames.tunnel();
        self.part = if session {
            Part::Session(0)
        } else {
            Part::Tunnel
        };
    }

    /// Says that a CONNECT request is answered with this status. With 2xx its session is open, or its
    /// content is a tunnel; otherwise what follows is the rest of an ordinary request. Nothing changes
    /// with 1xx, and if the stream does not wait for an answer.
    pub fn answer(&mut self, status: u32)
        ensures { self.new ≡ answered self.old status }
    {
        if let Part::Unanswered(session, message) = self.part {
            if status >= 200 && status < 300 {
                self.connect(session);
            } else if status >= 300 {
                self.part = Part::Body(message);
            }
        }
    }

    /// Returns what the stream waits for. It is still `Settings` or `Table` once these came, until the
    /// next call of [`receive`](crate::connection::Connection::receive).
    pub fn waits(&self) -> Option<Waits>
        ensures { result ≡ waits_for_is self.now }
    {
        if let Unread::Early(_, delay) = self.unread {
            return Some(delay.waits());
        }
        if let Part::Unanswered(_, _) = self.part {
            return Some(Waits::Answer);
        }
        match self.frames.waits() {
            Some(session) => Some(Waits::Session(session)),
            None => None,
        }
    }

    /// Returns whether the stream has a request whose header section was not read. If the stream waits
    /// for SETTINGS or for the dynamic table, the header section is what waits.
    pub fn is_request_head(&self) -> bool
        ensures { result ≡ is_request_head_is self.now }
    {
        matches!(self.part, Part::Head(_)) && self.asked.is_none()
    }
}
