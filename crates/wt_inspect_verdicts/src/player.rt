//! The end that judges.
ghost use Rattle.std.specs.Prelude.{◌≡◌, true, OnOk};
ghost use Rattle.vesgrauf.specs.State.{Pauses};
ghost use Rattle.wt_inspect_verdicts.specs.Findings.{EndOnce};
ghost use Rattle.wt_inspect_verdicts.specs.Players.{Reads, stream_in};

mod messages;
mod outputs;
mod waiting;

use crate::findings::Findings;
use crate::reading::Steps;
use crate::stream::Stream;
use crate::verdict::{Finding, Place, Verdict, found_on_stream};
use std::alloc::{AllocError, Global};
use std::collections::BTreeMap;
use vesgrauf::config::Config;
use vesgrauf::connection::Connection;
use vesgrauf::event::{Event, EventKind, Tunnel, Why};
use vesgrauf::input::Input;
use vesgrauf::output::Shutdown;
use vesgrauf::refused::Refused;
use wtp_core::ids::StatusCode;
use wtp_fields::fields::FieldList;

/// An end to which a recorded peer sends.
#[derive(Drop)]
pub(crate) struct Player<'a> {
    alloc: Global,
    /// What it is to send stays in it.
    connection: Connection,
    /// The streams on which the peer sent something.
    streams: BTreeMap<u64, Stream<'a>>,
    /// The recorded requests.
    requests: BTreeMap<u64, FieldList>,
    /// The statuses of the recorded answers.
    answers: BTreeMap<u64, StatusCode>,
    /// The sessions that cannot be asked for, since SETTINGS of the peer do not allow them.
    unasked: Vec<u64>,
    /// The streams whose request is a CONNECT.
    tunnels: Vec<u64>,
    /// The sessions that were opened.
    sessions: Vec<u64>,
    /// The sessions that the peer closed.
    closed: Vec<u64>,
    /// The encoder stream of the peer, and how many of its steps were read.
    encoder: Option<u64>,
    steps: Steps,
    next_step: usize,
    /// How many entries were inserted.
    inserted: u64,
    findings: Findings,
}

impl<'a> Player<'a> {
    /// Creates an end with this configuration. The peer inserts entries into its dynamic table by these
    /// steps of its encoder stream.
    pub(crate) fn new(alloc: Global, config: Config, steps: Steps) -> Result<Self, AllocError> {
        Ok(Player {
            alloc,
            connection: Connection::new(alloc, config)?,
            streams: BTreeMap::new(alloc),
            requests: BTreeMap::new(alloc),
            answers: BTreeMap::new(alloc),
            unasked: Vec::new(alloc),
            tunnels: Vec::new(alloc),
            sessions: Vec::new(alloc),
            closed: Vec::new(alloc),
            encoder: None,
            steps,
            next_step: 0,
            inserted: 0,
            findings: Findings::new(alloc),
        })
    }

    /// Adds a stream.
    pub(crate) fn add(&mut self, id: u64, stream: Stream<'a>) -> Result<(), AllocError> {
        self.streams.insert(id, stream)?;
        Ok(())
    }

    /// Adds a request of this end.
    pub(crate) fn add_request(&mut self, id: u64, list: FieldList) -> Result<(), AllocError> {
        self.requests.insert(id, list)?;
        Ok(())
    }

    /// Adds the status of a recorded answer.
    pub(crate) fn add_answer(&mut self, id: u64, status: StatusCode) -> Result<(), AllocError> {
        self.answers.insert(id, status)?;
        Ok(())
    }

    /// Returns whether there is a stream with this ID.
    pub(crate) fn has(&self, id: u64) -> bool {
        self.streams.contains_key(&id)
    }

    /// Returns the streams, by their IDs.
    pub(crate) fn streams(&self) -> &BTreeMap<u64, Stream<'a>> {
        &self.streams
    }

    /// Lets only so many bytes of a stream be read.
    pub(crate) fn limit(&mut self, id: u64, size: usize) {
        if let Some(stream) = self.streams.get_mut(&id) {
            stream.limit(size);
        }
    }

    /// Says that a stream is the encoder stream, unless another is. It is read step by step, from its type
    /// on.
    pub(crate) fn set_encoder(&mut self, id: u64) {
        if self.encoder.is_none() {
            self.encoder = Some(id);
            let size = self.steps.size_of(0);
            self.limit(id, size);
            self.next_step = 1;
        }
    }

    /// Sends GOAWAY with this ID, if there is a request that is not below it.
    pub(crate) fn leave(&mut self, first: u64) -> Result<(), AllocError> {
        if first % 4 != 0 || !self.has_request_from(first) {
            return Ok(());
        }
        // (a connection names the first request that it has not seen)
        if let Some(last) = first.checked_sub(4) {
            self.play(Place::Stream(last), Input::stream(last, &[], false))?;
        }
        done(self.connection.shutdown(Shutdown::Final))
    }

    /// Returns whether there is a request on a stream from this one on.
    fn has_request_from(&self, first: u64) -> bool {
        for (id, _) in &self.streams {
            if *id >= first && *id % 4 == 0 {
                return true;
            }
        }
        false
    }

    /// Returns whether a session cannot be asked for.
    pub(crate) fn is_unasked(&self, session: u64) -> bool {
        self.unasked.contains(&session)
    }

    /// Returns what was found.
    pub(crate) fn into_verdicts(self) -> Vec<Verdict>
        ensures { EndOnce result.items }
    {
        self.findings.into_verdicts()
    }
}

impl<'a> Player<'a> {
    /// Reads what may be read of a stream now.
    pub(crate) fn read(&mut self, id: u64) -> Result<(), AllocError> {
        match self.take(id) {
            Some(input) => self.play(Place::Stream(id), input),
            None => Ok(()),
        }
    }

    /// Takes the bytes of a stream that may be read now.
    fn take(&mut self, id: u64) -> Option<Input<'a>>
        ensures { Reads id (stream_in self.old id) result }
    {
        match self.streams.get_mut(&id) {
            Some(stream) => Some(stream.read(id)),
            None => None,
        }
    }

    /// Takes a datagram, which is the piece with this index.
    pub(crate) fn datagram(&mut self, index: usize, bytes: &[u8]) -> Result<(), AllocError> {
        self.play(Place::Datagram(index), Input::datagram(bytes))
    }

    /// Passes what came from a place to the connection, and notes what it finds.
    fn play(&mut self, from: Place, input: Input<'_>) -> Result<(), AllocError> {
        let mut input = input;
        for _event in 0..u64::MAX {
            let told = self.connection.next_event(&mut input)?;
            self.take_outputs()?;
            let Some(event) = told else {
                return Ok(());
            };
            if !self.is_for_tunnel(&event) {
                let is_open = self.sessions.contains(&event.stream);
                let failure = self.connection.failure();
                self.findings.note(from, &event, is_open, failure)?;
            }
            self.heed(&event)?;
        }
        Ok(())
    }

    /// Returns whether an event says that a datagram came for a CONNECT request, which asks for no
    /// session: it may have a use for datagrams that is not known here.
    fn is_for_tunnel(&self, event: &Event<'_>) -> bool {
        match &event.kind {
            EventKind::Failed(failure) => match found_on_stream(failure.rule) {
                Finding::NoDatagrams => self.tunnels.contains(&event.stream),
                _ => false,
            },
            _ => false,
        }
    }

    /// Does what an event asks for. What follows the request and the response that open a session is read
    /// at the end.
    fn heed(&mut self, event: &Event<'_>) -> Result<(), AllocError> {
        let id = event.stream;
        match &event.kind {
            EventKind::Request(_) => self.answer(id, false),
            EventKind::Connect(Tunnel::Session, _) => {
                self.answer(id, true)?;
                self.note_open(id)?;
                done(self.hold(id))
            }
            EventKind::Connect(Tunnel::Other, _) => {
                self.tunnels.push(id)?;
                self.answer(id, true)
            }
            EventKind::Response(_, _) => {
                if self.note_open(id)? {
                    done(self.hold(id))?;
                }
                Ok(())
            }
            EventKind::Closed(Why::Session(_)) => Ok(self.closed.push(id)?),
            _ => Ok(()),
        }
    }

    /// Notes that a session was opened, if it is open now. Returns whether it is.
    fn note_open(&mut self, session: u64) -> Result<bool, AllocError> {
        let is_open = self.connection.max_datagram(session).is_some();
        if is_open {
            self.sessions.push(session)?;
        }
        Ok(is_open)
    }

    /// Holds a stream: nothing more is read of it for now.
    fn hold(&mut self, id: u64) -> Result<(), Refused>
        ensures { OnOk result (Pauses id true self.old.connection self.new.connection) }
    {
        self.connection.pause(id, true)
    }
}

/// Takes the result of a call: one that was refused changed nothing.
///
/// Returns [`AllocError`] if allocation failed.
fn done(called: Result<(), Refused>) -> Result<(), AllocError> {
    match called {
        Err(Refused::Memory) => Err(AllocError),
        _ => Ok(()),
    }
}
