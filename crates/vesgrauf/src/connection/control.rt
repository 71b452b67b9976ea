//! The own control stream, and the end of the connection.
ghost use Rattle.std.specs.Prelude.{◌≡◌, ◌++◌, false, Some, length, option_map, IfOk, OnOk, OnErr, IfErr, []};
ghost use Rattle.vesgrauf.specs.Halves.{LastsOn};
ghost use Rattle.vesgrauf.specs.Instructions.{first_bytes, table_of};
ghost use Rattle.vesgrauf.specs.Keeps.{Keeps};
ghost use Rattle.vesgrauf.specs.State.{is_over, next_output, stream_at, view_of, with_begun, EndsUnless, IsAfterEnd, IsStill};
ghost use Rattle.vesgrauf.specs.Leaving.{ShutsDown, RefusesGoaway, not_above, goaway_for as goaway_is};
ghost use Rattle.vesgrauf.specs.declared.output.Output.TheVariants as output;
ghost use Rattle.vesgrauf_queue.specs.State.{counted, waiting};
ghost use Rattle.vesgrauf.specs.Config.{announced};
ghost use Rattle.wtp_sending.specs.Control.{settings_bytes};
ghost use Rattle.vesgrauf.specs.Progress.{IsSpent};
ghost use Rattle.vesgrauf.specs.Theirs.{IsSilent};
ghost use Rattle.vesgrauf.specs.Told.{GoesOn, said_in};
ghost use Rattle.vesgrauf.specs.Works.{WorksOn};

use crate::connection::{Connection, Ended, Step, Stop};
use crate::event::{Event, EventKind};
use crate::output::{Shutdown, Stats};
use crate::refused::Refused;
use std::alloc::AllocError;
use vesgrauf_queue::queue::Queue;
use wtp_core::error::Code;
use wtp_core::varint::VarInt;
use wtp_sending::error::SendError;
use wtp_wire::settings::Settings;

/// The ID of a GOAWAY that rejects no request yet (RFC 9114, section 5.2).
const NO_REQUEST: u64 = (1 << 62) - 4;

#[tactic(auto, using(crate::proofs::KeepsLemmas::keep))]
impl Connection {
    // Queues the first bytes of the own control stream, and of the own decoder stream.
    #[tactic(auto, using(crate::proofs::KeepsLemmas::kept))]
    pub(super) fn begin(&mut self) -> Result<(), AllocError>
        ensures others { view_of self.new ≡ with_begun self.new (view_of self.old) }
        ensures starts { OnOk result (waiting self.new.control.queue
            ≡ waiting self.old.control.queue ++ settings_bytes (announced self.old.config)) }
        ensures instructions { OnOk result ((table_of self.new).bytes
            ≡ (table_of self.old).bytes ++ first_bytes self.old.config) }
        ensures goes { GoesOn [] self.old self.new }
    {
        self.begin_control()?;
        self.begin_decoder()?;
        match self.queue_instructions() {
            Ok(()) => Ok(()),
            Err(_) => Err(AllocError),
        }
    }

    // Queues the first bytes of the own control stream.
    #[tactic(auto, using(crate::proofs::KeepsLemmas::kept))]
    fn begin_control(&mut self) -> Result<(), AllocError>
        ensures others { view_of self.new ≡ with_begun self.new (view_of self.old) }
        ensures config { self.new.config ≡ self.old.config }
        ensures starts { OnOk result (waiting self.new.control.queue
            ≡ waiting self.old.control.queue ++ settings_bytes (announced self.old.config)) }
        ensures decoder { self.new.decoder ≡ self.old.decoder }
        ensures instructions { self.new.told.items ≡ self.old.told.items }
        ensures goes { GoesOn [] self.old self.new }
    {
        let bytes = self.first_control_bytes()?;
        self.control.id = self.take_critical();
        match self.control.push(&mut self.tools.spares, bytes.as_slice()) {
            Ok(_) => Ok(()),
            Err(_) => Err(AllocError),
        }
    }

    // Returns the first bytes of the own control stream.
    fn first_control_bytes(&mut self) -> Result<Vec<u8>, AllocError>
        ensures bytes { IfOk result (λ v. v.items ≡ settings_bytes (announced self.old.config)) }
        ensures others { self.new ≡ record self.old { goaways = self.new.goaways } }
    {
        let settings = self.settings()?;
        let mut bytes = Vec::new(self.alloc);
        match self.goaways.settings(self.alloc, &settings, &mut bytes) {
            Ok(()) => Ok(bytes),
            Err(_) => Err(AllocError),
        }
    }

    // Returns the own SETTINGS.
    fn settings(&self) -> Result<Settings, AllocError>
        ensures { IfOk result (λ s. s ≡ announced self.now.config) }
    {
        let config = self.config;
        let mut builder = Settings::builder(self.alloc)
            .max_field_section_size(VarInt::from_u32(config.max_field_section_size))?
            .qpack_max_table_capacity(VarInt::from_u32(config.qpack_max_table_capacity))?
            .qpack_blocked_streams(VarInt::from_u32(u32::from(config.qpack_blocked_streams)))?;
        if config.extended_connect {
            builder = builder.enable_connect_protocol()?;
        }
        if config.datagrams {
            builder = builder.enable_h3_datagrams()?;
        }
        if config.webtransport {
            builder = builder
                .enable_webtransport()?
                .webtransport_max_sessions(VarInt::from_u32(config.max_sessions))?;
        }
        Ok(builder.build())
    }

    /// Shuts the connection down (RFC 9114, section 5.2): sends GOAWAY. After
    /// [`Final`](crate::output::Shutdown::Final), once no stream is left and what was queued is sent, the connection
    /// closes with H3_NO_ERROR, after an event [`Idle`](crate::event::EventKind::Idle).
    ///
    /// # Errors
    ///
    /// Nothing changes. `Closed`; `Send` at a server for [`Notice`](crate::output::Shutdown::Notice) after the last one; and
    /// `Memory`.
    /// The last one may be repeated: GOAWAY is sent again.
    #[tactic(auto, using(crate::proofs::ActLemmas::act, crate::proofs::ActLemmas::act_still, crate::proofs::ActLemmas::act_kept, crate::proofs::KeepsLemmas::kept, crate::proofs::LastsLemmas::lasts_refl))]
    pub fn shutdown(&mut self, phase: Shutdown) -> Result<(), Refused>
        ensures ok { OnOk result (ShutsDown phase self.old self.new) }
        ensures lives { OnOk result (is_over self.old ≡ false) }
        ensures why { IfErr result (λ e.
            RefusesGoaway (is_over self.old) self.old.goaways (goaway_is phase self.old) e) }
        ensures kept { OnErr result (IsStill self.old self.new) }
        ensures goes { GoesOn [] self.old self.new }
        ensures lasts { LastsOn [] self.old self.new }
        ensures works { WorksOn self.old self.new }
    {
        if self.ended.is_some() {
            return Err(Refused::Closed);
        }
        let id = self.goaway_for(phase);
        let Ok(first) = VarInt::try_from_u64(id) else {
            return Err(Refused::Send(SendError::InvalidId));
        };
        let mut bytes = Vec::new(self.alloc);
        let mut next = self.goaways;
        match next.goaway(first, &mut bytes) {
            Ok(()) => {}
            Err(SendError::Memory) => return Err(Refused::Memory),
            Err(error) => return Err(Refused::Send(error)),
        }
        match self.control.push(&mut self.tools.spares, bytes.as_slice()) {
            Ok(()) => {}
            Err(_) => return Err(Refused::Memory),
        }
        self.goaways = next;
        self.is_leaving = self.is_leaving || phase == Shutdown::Final;
        Ok(())
    }

    // Returns the ID of a GOAWAY: a request's at a server, and a push's at a client, which allows none.
    fn goaway_for(&self, phase: Shutdown) -> u64
        ensures { result ≡ goaway_is phase self.now }
    {
        if !self.is_server() {
            return 0;
        }
        match phase {
            Shutdown::Notice => NO_REQUEST,
            Shutdown::Final => self.first_unprocessed(),
        }
    }

    // Returns the first request that did not come; or that of the last GOAWAY, if it is below: those from it on are rejected.
    fn first_unprocessed(&self) -> u64
        ensures { result ≡ not_above self.now.goaways.goaway self.now.ids.peer_bidirectional }
    {
        let first = self.ids.first_unseen();
        match self.goaways.last_goaway() {
            Some(last) => first.min(last.into_inner()),
            None => first,
        }
    }

    /// Closes the connection at once, with a code of HTTP/3. What is queued is dropped, and each stream that is not closed
    /// is told to be. Nothing changes if it ended before.
    #[tactic(auto, using(crate::proofs::ActLemmas::act, crate::proofs::ActLemmas::act_still, crate::proofs::ActLemmas::act_kept, crate::proofs::KeepsLemmas::kept))]
    pub fn close(&mut self, code: Code)
        ensures end { EndsUnless (is_over self.old) code self.old self.new }
        ensures after { is_over self.old ≡ false → IsAfterEnd self.new }
        ensures output { is_over self.old ≡ false → next_output self.new ≡ Some (output.Close code) }
        ensures goes { GoesOn [] self.old self.new }
        ensures works { WorksOn self.old self.new }
    {
        self.break_off(code.number().into_inner());
    }

    /// Returns how many streams and sessions there are, how many bytes are kept, and how many datagrams are queued.
    pub fn stats(&self) -> Stats
        ensures streams { result.streams ≡ length self.now.streams.entries }
        ensures sessions { result.sessions ≡ self.now.sessions }
        ensures held { result.held ≡ self.now.held }
        ensures datagrams { result.datagrams ≡ length self.now.datagrams.queue.items }
    {
        Stats {
            streams: self.streams.len(),
            sessions: self.sessions,
            held: self.held,
            datagrams: self.datagrams.queue.len(),
        }
    }

    /// Returns how many bytes of a stream count to [`send_buffer`](crate::config::Config): those that are queued and, with
    /// [`bound_by_acked`](crate::config::Config), those that are not acknowledged. `None` if there is no such stream.
    pub fn queued(&self, id: u64) -> Option<u64>
        ensures { result ≡ option_map (λ e. counted e.writing.queue) (stream_at self.now id) }
    {
        match self.streams.get(&id) {
            Some(entry) => Some(entry.writing.counted()),
            None => None,
        }
    }

    // Returns whether no message and no session is left, and nothing waits to be sent.
    pub(super) fn is_idle(&self) -> bool
        ensures { result ≡ false → ¬ (IsSpent self.now) }
    {
        self.streams.len() <= self.quiet
            && self.control.is_idle()
            && self.decoder.is_idle()
            && self.encoder.is_idle()
            && self.outputs.is_empty()
            && self.datagrams.queue.is_empty()
    }

    // Closes the connection, of which nothing is left.
    #[tactic(auto, using(crate::proofs::KeepsLemmas::keep, crate::proofs::KeepsLemmas::keeps_at_end, crate::proofs::GoesLemmas::goes_aside))]
    pub(super) fn shut_down<'a>(&mut self) -> Step<'a>
        ensures keeps { Keeps (said_in result) self.old self.new }
        ensures silent { IsSilent result }
    {
        let code = Code::H3_NO_ERROR.number().into_inner();
        self.datagrams.queue.clear();
        self.ended = Some(Ended {
            code,
            by_peer: false,
            is_told: false,
        });
        self.closes = Some(code);
        self.pending.cursor = 0;
        Step::Told(Event::of_connection(EventKind::Idle))
    }
}
