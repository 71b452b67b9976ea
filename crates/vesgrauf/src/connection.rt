//! A whole connection.
ghost use Rattle.std.specs.Prelude.{length};
ghost use Rattle.vesgrauf.specs.Joined.{Joined, Joined-prop};
ghost use Rattle.vesgrauf.specs.Limits.{FewWait, FewWait-prop, Within, Within-prop};
ghost use Rattle.vesgrauf.specs.Places.{Ordered, Ordered-prop};

mod beginning;
mod calls;
mod closing;
mod control;
mod cutting;
mod datagrams;
mod endings;
mod failing;
mod heads;
mod heard;
mod ids;
mod leaving;
mod looking;
mod losing;
mod malformed;
mod messages;
mod opened;
mod opening;
mod over;
mod peers;
mod pieces;
mod placing;
mod quick;
mod reading;
mod requests;
mod sending;
mod sessions;
mod settled;
mod steps;
mod table;
mod waiting;

use crate::config::Config;
use crate::connection::beginning::{other_side, shared_for};
use crate::connection::ids::Ids;
use crate::critical::Critical;
use crate::entry::{Entry, Member};
use crate::event::{Event, EventKind, Failure};
use crate::input::{Input, Report};
use crate::output::Output;
use std::alloc::{AllocError, AllocFailed, Global};
use std::collections::{BTreeSet, VecDeque};
use vesgrauf_ready::ready::Ready;
use vesgrauf_stream::early::EarlyDatagrams;
use vesgrauf_stream::tools::Tools;
use vesgrauf_streams::map::StreamMap;
use wtp_connection::budget::RequestBudget;
use wtp_connection::settings::PeerSettings;
use wtp_core::error::Code;
use wtp_sending::control::ControlSending;
use wtp_webtransport::connection::Connection as Shared;
use wtp_webtransport::fault::Fault;
use wtp_webtransport::fields::Fields;

/// A whole connection of HTTP/3 and WebTransport: its streams, what came on them, what is queued, and what QUIC is to
/// do.
#[derive(Drop)]
pub struct Connection {
    alloc: Global,
    config: Config,
    /// What the peer's halves have in common.
    shared: Shared,
    fields: Fields,
    /// What the own halves have in common.
    tools: Tools,
    /// The streams, but for the own critical ones.
    streams: StreamMap<Entry>,
    /// The streams that wait, or are paused.
    waiting: BTreeSet<u64>,
    /// The streams of which a `Writable` is owed.
    full: BTreeSet<u64>,
    /// The streams that may be sent from.
    ready: Ready,
    /// A stream that is to have its place among them, for which memory was refused.
    unplaced: Option<u64>,
    /// The own control stream, and the own streams of QPACK.
    control: Critical,
    decoder: Critical,
    encoder: Critical,
    goaways: ControlSending,
    /// Instructions for the own decoder stream that are not queued yet.
    told: Vec<u8>,
    ids: Ids,
    /// Events that are not of an input.
    events: VecDeque<Event<'static>>,
    outputs: VecDeque<Output>,
    datagrams: DatagramQueue,
    budget: RequestBudget,
    /// How many sessions there are, or may come to be.
    sessions: u32,
    /// How many streams are the peer's critical or ignored ones.
    quiet: usize,
    pending: Pending,
    /// How many bytes are kept of all streams that QUIC's windows were extended by.
    held: usize,
    /// How often the program said that time has passed.
    ticks: u64,
    /// Whether QUIC takes nothing of any stream.
    is_blocked: bool,
    /// Whether SETTINGS of the peer came.
    is_configured: bool,
    /// Whether the last GOAWAY was sent.
    is_leaving: bool,
    /// How the connection ended.
    ended: Option<Ended>,
    /// The rule by whose violation it did.
    failure: Option<Failure>,
    /// The code with which QUIC is to close the connection.
    closes: Option<u64>,
    ghost ordered: { Ordered streams.entries ready.ranks unplaced } by { Ordered-prop streams.entries ready.ranks unplaced },
    ghost joined: { Joined streams.entries ids } by { Joined-prop streams.entries ids },
    ghost within: { Within config (length datagrams.queue.items) sessions held budget } by { Within-prop config (length datagrams.queue.items) sessions held budget },
    ghost few: { FewWait config ids } by { FewWait-prop config ids },
}

/// What is to be looked at in the next steps.
#[derive(Clone, Copy)]
struct Pending {
    /// A stream that waited, and is read again.
    resumed: Option<u64>,
    /// Whether a wait may be over.
    is_woken: bool,
    /// The stream from which on streams are looked at.
    cursor: u64,
    /// Whether there may be room on a stream that was full.
    has_room: bool,
    /// Whether an `Openable` is owed, of each kind of streams.
    owes_bidirectional: bool,
    owes_unidirectional: bool,
    /// Whether the own encoder is to begin.
    begins_table: bool,
    /// A stream that named its session, and is to join it: it did not yet if memory was refused.
    named: Option<Member>,
    /// The first request that a server does not process, if streams are to be told so.
    unprocessed: Option<u64>,
}

impl Pending {
    // Nothing is to be looked at.
    fn nothing() -> Self {
        Pending {
            resumed: None,
            is_woken: false,
            cursor: 0,
            has_room: false,
            owes_bidirectional: false,
            owes_unidirectional: false,
            begins_table: false,
            named: None,
            unprocessed: None,
        }
    }
}

/// Datagrams that are queued, and those that came too early.
#[derive(Drop)]
struct DatagramQueue {
    queue: VecDeque<Vec<u8>>,
    /// How many bytes a datagram of QUIC may have.
    limit: usize,
    /// Whether a `DatagramsWritable` is owed.
    is_owed: bool,
    early: EarlyDatagrams,
    /// Those that came before the last tick.
    aged: EarlyDatagrams,
    /// Sessions that were opened or refused, whose early datagrams are to be given or dropped.
    opened: VecDeque<u64>,
}

impl DatagramQueue {
    ghost use Rattle.std.specs.Prelude.{◌≡◌, []};

    // None is queued, and they may be as large as QUIC's.
    fn new(alloc: Global) -> Self
        ensures { result.queue.items ≡ [] }
    {
        DatagramQueue {
            queue: VecDeque::new(alloc),
            limit: 65_535,
            is_owed: false,
            early: EarlyDatagrams::new(alloc),
            aged: EarlyDatagrams::new(alloc),
            opened: VecDeque::new(alloc),
        }
    }
}

/// How a connection ended.
#[derive(Clone, Copy)]
struct Ended {
    code: u64,
    by_peer: bool,
    /// Whether the last event was told.
    is_told: bool,
}

/// Why a step is not done.
#[derive(Clone, Copy)]
enum Stop {
    /// Memory was refused: nothing changed.
    Memory,
    /// An error ends the connection, with this code: that of the peer's fault, if it is one.
    Broken(u64, Option<Fault>),
}

impl From<AllocError> for Stop {
    fn from(_error: AllocError) -> Stop {
        Stop::Memory
    }
}

impl<T: Drop> From<AllocFailed<T>> for Stop {
    fn from(_error: AllocFailed<T>) -> Stop {
        Stop::Memory
    }
}

impl From<Fault> for Stop {
    fn from(fault: Fault) -> Stop {
        Stop::Broken(fault.code().number().into_inner(), Some(fault))
    }
}

// The end of the connection by an error of this endpoint or of its QUIC library.
fn internal() -> Stop {
    Stop::Broken(Code::H3_INTERNAL_ERROR.number().into_inner(), None)
}

/// What a step did.
#[derive(Drop)]
enum Step<'a> {
    /// This is to be told.
    Told(Event<'a>),
    /// Something, and there may be more to do.
    More,
    /// Nothing is left to do.
    Nothing,
}

#[tactic(auto, using(crate::proofs::KeepsLemmas::keep))]
impl Connection {
    ghost use Rattle.vesgrauf.specs.Keeps.{Keeps, KeepsOwn};
    ghost use Rattle.vesgrauf.specs.Halves.{LastsOn};
    ghost use Rattle.vesgrauf.specs.Instructions.{first_bytes, table_of};
    ghost use Rattle.vesgrauf.specs.Bounds.{InstructionsFit, IsBounded, KeepsBound};
    ghost use Rattle.vesgrauf.specs.Progress.{IsSettled};
    ghost use Rattle.vesgrauf.specs.Own.{UntouchedOrNew};
    ghost use Rattle.vesgrauf.specs.State.{IsAfterEnd, IsSomeOk, is_last, is_over};
    ghost use Rattle.vesgrauf.specs.Told.{GoesOn, said_by, told_by_call, Sound};
    ghost use Rattle.vesgrauf_queue.specs.State.{waiting};
    ghost use Rattle.vesgrauf.specs.Config.{announced};
    ghost use Rattle.wtp_sending.specs.Control.{settings_bytes};
    ghost use Rattle.vesgrauf.specs.Works.{WorksOn};
    ghost use Rattle.vesgrauf.specs.Theirs.{Tells, TellsAll, IsSilent, told_in, told_by};
    ghost use Rattle.vesgrauf.specs.declared.config.OnMalformed.TheVariants as chosen;
    ghost use Rattle.std.specs.Prelude.{◌≡◌, if◌then◌else◌, true, false, Ok, Some, None, [], IfOk, OnOk};

    /// Creates a connection. Its first outputs open its control stream and, with a dynamic table, its decoder stream.
    ///
    /// # Errors
    ///
    /// If memory is refused.
    #[tactic(auto, using(crate::proofs::GoesSteps::sound_then))]
    pub fn new(alloc: Global, config: Config) -> Result<Self, AllocError>
        ensures of_config { IfOk result (λ c. c.config ≡ config) }
        ensures streams { IfOk result (λ c. c.streams.entries ≡ []) }
        ensures outputs { IfOk result (λ c. (c.events.items ≡ []) × (c.outputs.items ≡ [])) }
        ensures datagrams { IfOk result (λ c. c.datagrams.queue.items ≡ []) }
        ensures open { IfOk result (λ c. (c.sessions ≡ 0) × (c.ended ≡ None) × (c.closes ≡ None)) }
        ensures sound { IfOk result (λ c. Sound c.streams.entries c.ids) }
        ensures starts { IfOk result (λ c. waiting c.control.queue ≡ settings_bytes (announced config)) }
        ensures instructions { IfOk result (λ c. (table_of c).bytes ≡ first_bytes config) }
        ensures bounded { IfOk result (λ c. IsBounded c) }
    {
        let mut connection = Connection::idle(alloc, config);
        connection.begin()?;
        Ok(connection)
    }

    // Returns a connection without streams, of which nothing is queued.
    #[tactic(auto, using(crate::proofs::GoesSteps::sound_none, crate::proofs::PlaceLemmas::ordered_none, crate::proofs::JoinedLemmas::joined_none, crate::proofs::LimitLemmas::within_none, crate::proofs::LimitLemmas::few_none))]
    fn idle(alloc: Global, config: Config) -> Self
        ensures of_config { result.config ≡ config }
        ensures streams { result.streams.entries ≡ [] }
        ensures outputs { (result.events.items ≡ []) × (result.outputs.items ≡ []) }
        ensures datagrams { result.datagrams.queue.items ≡ [] }
        ensures open { (result.sessions ≡ 0) × (result.ended ≡ None) × (result.closes ≡ None) }
        ensures starts { waiting result.control.queue ≡ [] }
        ensures instructions { (table_of result).bytes ≡ [] }
        ensures sound { Sound result.streams.entries result.ids }
    {
        let queue = config.queue();
        Connection {
            alloc,
            config,
            shared: shared_for(alloc, &config),
            fields: Fields::new(alloc, u64::from(config.max_field_section_size)),
            tools: Tools::new(alloc),
            streams: StreamMap::new(alloc),
            waiting: BTreeSet::new(alloc),
            full: BTreeSet::new(alloc),
            ready: Ready::new(alloc, config.fair.max(1)),
            unplaced: None,
            control: Critical::new(alloc, queue),
            decoder: Critical::new(alloc, queue),
            encoder: Critical::new(alloc, queue),
            goaways: ControlSending::new(other_side(config.side)),
            told: Vec::new(alloc),
            ids: Ids::new(alloc, config.side),
            events: VecDeque::new(alloc),
            outputs: VecDeque::new(alloc),
            datagrams: DatagramQueue::new(alloc),
            budget: RequestBudget::with_excess(config.max_resets),
            sessions: 0,
            quiet: 0,
            pending: Pending::nothing(),
            held: 0,
            ticks: 0,
            is_blocked: false,
            is_configured: false,
            is_leaving: false,
            ended: None,
            failure: None,
            closes: None,
        }
    }

    /// Returns the next event, or `None` once the input is taken in and nothing else is to be told.
    ///
    /// Call it until `None` after each report of QUIC, and with [`Input::none`] after calls that were not made while
    /// an event was handled.
    ///
    /// # Errors
    ///
    /// If memory is refused: nothing is lost, the input has what was not taken in, and the call is to be made again.
    #[tactic(auto, using(crate::proofs::ActLemmas::act, crate::proofs::KeepsOwnLemmas::held, crate::proofs::ProgressLemmas::quiet_settled, crate::proofs::BoundLemmas::bounded))]
    #[inline(always)]
    pub fn next_event<'a>(&mut self, input: &mut Input<'a>) -> Result<Option<Event<'a>>, AllocError>
        ensures last { IsAfterEnd self.old → IsSomeOk result (λ e. is_last e.kind ≡ true) }
        ensures over { IsAfterEnd self.old → IsAfterEnd self.new }
        ensures ends { is_over self.old ≡ true → is_over self.new ≡ true }
        ensures own { self.old.config.on_malformed ≡ chosen.Reset
            → UntouchedOrNew self.old.ids self.old.streams.entries self.new.streams.entries }
        ensures told { is_over self.new ≡ false → IfOk result (λ e. TellsAll self.old.ids (told_by e)
            self.old.streams.entries input.old self.new.streams.entries input.new) }
        ensures config { self.new.config ≡ self.old.config }
        ensures goes { GoesOn (told_by_call result) self.old self.new }
        ensures lasts { self.old.config.on_malformed ≡ chosen.Reset → LastsOn (told_by_call result) self.old self.new }
        ensures settled { result ≡ Ok None → IsSettled self.new input.new }
        ensures bounded { IsBounded self.old → is_over self.new ≡ false → OnOk result (IsBounded self.new) }
        ensures works { OnOk result (WorksOn self.old self.new) }
    {
        if self.has_nothing_due(input) {
            return Ok(None);
        }
        self.next_due(input)
    }

    // Takes one step.
    #[tactic(auto, using(crate::proofs::ActLemmas::act, crate::proofs::KeepsOwnLemmas::hold, crate::proofs::StepLemmas::left_then_tells, crate::proofs::BoundLemmas::bound))]
    fn step<'a>(&mut self, input: &mut Input<'a>) -> Result<Step<'a>, Stop>
        ensures keeps { KeepsOwn (said_by result) self.old self.new }
        ensures works { OnOk result (WorksOn self.old self.new) }
        ensures tells { IfOk result (λ s. Tells (told_in s)
            self.old.streams.entries input.old self.new.streams.entries input.new) }
        ensures bounded { OnOk result (KeepsBound self.old self.new) }
    {
        self.prepare()?;
        self.step_due(input)
    }

    // Takes a step for a session that opened, or another.
    #[tactic(auto, using(crate::proofs::ActLemmas::act, crate::proofs::KeepsOwnLemmas::hold, crate::proofs::BoundLemmas::bound))]
    fn step_due<'a>(&mut self, input: &mut Input<'a>) -> Result<Step<'a>, Stop>
        ensures keeps { KeepsOwn (said_by result) self.old self.new }
        ensures works { OnOk result (WorksOn self.old self.new) }
        ensures tells { IfOk result (λ s. Tells (told_in s)
            self.old.streams.entries input.old self.new.streams.entries input.new) }
        ensures bounded { OnOk result (KeepsBound self.old self.new) }
    {
        if let Some(session) = self.session_opened() {
            return Ok(self.step_opened(session));
        }
        self.step_read(input)
    }

    // Takes a step by what is kept of a stream that is read again, or by what the input reports.
    #[tactic(auto, using(crate::proofs::ActLemmas::act, crate::proofs::KeepsOwnLemmas::hold, crate::proofs::BoundLemmas::bound, crate::proofs::BoundLemmas::bound_kept))]
    fn step_read<'a>(&mut self, input: &mut Input<'a>) -> Result<Step<'a>, Stop>
        ensures keeps { KeepsOwn (said_by result) self.old self.new }
        ensures works { OnOk result (WorksOn self.old self.new) }
        ensures tells { IfOk result (λ s. Tells (told_in s)
            self.old.streams.entries input.old self.new.streams.entries input.new) }
        ensures bounded { OnOk result (KeepsBound self.old self.new) }
    {
        if let Some(id) = self.pending.resumed {
            return self.read_kept(id);
        }
        self.take_input(input)
    }

    // Takes a step by what the input reports.
    #[tactic(auto, using(crate::proofs::ActLemmas::act, crate::proofs::KeepsOwnLemmas::hold, crate::proofs::TellsLemmas::reported_tells, crate::proofs::BoundLemmas::bound))]
    fn take_input<'a>(&mut self, input: &mut Input<'a>) -> Result<Step<'a>, Stop>
        ensures keeps { KeepsOwn (said_by result) self.old self.new }
        ensures works { OnOk result (WorksOn self.old self.new) }
        ensures tells { IfOk result (λ s. Tells (told_in s)
            self.old.streams.entries input.old self.new.streams.entries input.new) }
        ensures bounded { OnOk result (KeepsBound self.old self.new) }
    {
        match input.report {
            Report::Nothing => self.step_alone(),
            Report::Stream(id) => self.stream_came(id, input),
            Report::Datagram => {
                let step = self.datagram_came(input.chunk.all())?;
                input.report = Report::Nothing;
                Ok(step)
            }
            _ => {
                self.report_came(input.report)?;
                input.report = Report::Nothing;
                Ok(Step::More)
            }
        }
    }

    // Takes in a report without bytes.
    fn report_came(&mut self, report: Report) -> Result<(), Stop>
        ensures keeps { Keeps [] self.old self.new }
    {
        match report {
            Report::Nothing | Report::Stream(_) | Report::Datagram => Ok(()),
            Report::Reset(id, code) => self.reset_came(id, code),
            Report::Stopped(id, code) => self.stop_came(id, code),
            Report::Closed(id) => Ok(self.stream_closed(id)?),
            Report::DatagramLimit(len) => {
                self.datagrams.limit = len;
                Ok(())
            }
            Report::ConnectionClosed(code) => {
                self.end_by_peer(code);
                Ok(())
            }
        }
    }

    // Does what is due before anything else, and reserves the memory that a step takes.
    fn prepare(&mut self) -> Result<(), Stop>
        ensures keeps { Keeps [] self.old self.new }
        ensures instructions { OnOk result (InstructionsFit self.new) }
    {
        self.reserve_all()?;
        self.place_due()?;
        self.count_inserts()?;
        self.begin_table()?;
        self.queue_instructions()?;
        self.check_instructions()
    }

    // Takes a step without an input.
    fn step_alone<'a>(&mut self) -> Result<Step<'a>, Stop>
        ensures keeps { Keeps (said_by result) self.old self.new }
        ensures silent { IfOk result IsSilent }
    {
        if let Some(first) = self.pending.unprocessed {
            return self.leave_unprocessed(first);
        }
        if self.pending.is_woken {
            return Ok(self.wake_next());
        }
        if self.pending.has_room {
            return Ok(self.next_writable());
        }
        if self.is_leaving && self.is_idle() {
            return Ok(self.shut_down());
        }
        Ok(Step::Nothing)
    }

    /// Returns the settings of the peer, or `None` until they came.
    pub fn peer_settings(&self) -> Option<PeerSettings>
        ensures { result ≡ (if self.now.is_configured then Some self.now.shared.streams.peer else None) }
    {
        if self.is_configured {
            Some(self.shared.peer_settings())
        } else {
            None
        }
    }
}
