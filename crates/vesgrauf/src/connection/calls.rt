//! Calls on one stream.
ghost use Rattle.std.specs.Prelude.{◌≡◌, is_some, is_ok, true, false, Some, None, OnOk, OnErr, IfErr, []};
ghost use Rattle.vesgrauf.specs.Halves.{LastsBut, LastsOn};
ghost use Rattle.vesgrauf.specs.Keeps.{KeepsBut};
ghost use Rattle.vesgrauf.specs.State.{code_on, named_at, Becomes, Pauses, Prioritizes, IsStill, IsRefusedBy, IsWhyNamed, is_over};
ghost use Rattle.vesgrauf.specs.declared.refused.Refused.TheVariants as refused;
ghost use Rattle.vesgrauf.specs.Own.{EndsOwn, Untouched};
ghost use Rattle.vesgrauf.specs.Theirs.{Left, Gone, theirs_at};
ghost use Rattle.vesgrauf.specs.Order.{LooksAt};
ghost use Rattle.vesgrauf.specs.Told.{GoesOn};
ghost use Rattle.vesgrauf.specs.Works.{WorksOn};

use crate::code::StreamCode;
use crate::connection::Connection;
use crate::connection::placing::move_place;
use crate::output::Output;
use crate::refused::Refused;
use std::alloc::AllocError;
use vesgrauf_ready::rank::Priority;

#[tactic(auto, using(crate::proofs::KeepsLemmas::keep))]
impl Connection {
    /// Resets the own half of a stream, with a code of HTTP/3 or, on a stream of a session, of the application. What is
    /// queued is dropped. One that was finished is reset too, unless all of it is acknowledged. That of a session's own
    /// stream ends the session, also one that is still to come.
    ///
    /// # Errors
    ///
    /// Nothing changes. `Closed`; `NoStream`; `WrongCode`; and `Memory`.
    #[tactic(auto, using(crate::proofs::ActLemmas::act, crate::proofs::ActLemmas::act_still, crate::proofs::ActLemmas::act_kept, crate::proofs::KeepsLemmas::kept, crate::proofs::LastsLemmas::lasts_refl))]
    pub fn reset(&mut self, id: u64, code: StreamCode) -> Result<(), Refused>
        ensures ends { OnOk result (EndsOwn id self.old.streams.entries self.new.streams.entries) }
        ensures fits { OnOk result (is_ok (code_on self.old id code) ≡ true) }
        ensures refused { IfErr result (λ e. IsRefusedBy (code_on self.old id code) e self.old self.new) }
        ensures own { Untouched self.old.streams.entries self.new.streams.entries }
        ensures left { Left self.old.streams.entries self.new.streams.entries }
        ensures config { self.new.config ≡ self.old.config }
        ensures goes { GoesOn [] self.old self.new }
        ensures lasts { LastsBut id self.old self.new }
        ensures works { WorksOn self.old self.new }
    {
        let code = self.code_for(id, code)?;
        self.reserve()?;
        Ok(self.reset_now(id, code)?)
    }

    // Ends the own half of a stream, and the session whose own stream it is, and forgets the stream if both halves are over.
    #[tactic(auto, using(crate::proofs::KeepsLemmas::but, crate::proofs::KeepsLemmas::keeps_ends))]
    fn reset_now(&mut self, id: u64, code: u64) -> Result<(), AllocError>
        ensures keeps { KeepsBut id self.old self.new }
        ensures ends { OnOk result (EndsOwn id self.old.streams.entries self.new.streams.entries) }
    {
        self.reset_fully(id, code)?;
        self.remove_if_done(id)
    }

    // Ends the own half of a stream, and the session whose own stream it is.
    #[tactic(auto, using(crate::proofs::KeepsLemmas::but, crate::proofs::KeepsLemmas::keeps_ends))]
    fn reset_fully(&mut self, id: u64, code: u64) -> Result<(), AllocError>
        ensures keeps { KeepsBut id self.old self.new }
        ensures ends { OnOk result (EndsOwn id self.old.streams.entries self.new.streams.entries) }
    {
        self.reset_own(id, code)?;
        self.reset_ended(id, code)?;
        self.end_if_session(id, code, true)
    }

    /// Asks the peer to stop its half of a stream, with a code of HTTP/3 or, on a stream of a session, of the
    /// application. Nothing more is read on it. That of a session's own stream ends the session, at a client also of one
    /// that is still to come.
    ///
    /// # Errors
    ///
    /// As of [`reset`](Self::reset).
    #[tactic(auto, using(crate::proofs::ActLemmas::act, crate::proofs::ActLemmas::act_still, crate::proofs::ActLemmas::act_kept, crate::proofs::KeepsLemmas::kept, crate::proofs::LastsLemmas::lasts_refl))]
    pub fn stop_sending(&mut self, id: u64, code: StreamCode) -> Result<(), Refused>
        ensures gone { OnOk result (theirs_at self.new.streams.entries id ≡ Gone) }
        ensures fits { OnOk result (is_ok (code_on self.old id code) ≡ true) }
        ensures refused { IfErr result (λ e. IsRefusedBy (code_on self.old id code) e self.old self.new) }
        ensures own { Untouched self.old.streams.entries self.new.streams.entries }
        ensures left { Left self.old.streams.entries self.new.streams.entries }
        ensures config { self.new.config ≡ self.old.config }
        ensures goes { GoesOn [] self.old self.new }
        ensures lasts { LastsBut id self.old self.new }
        ensures works { WorksOn self.old self.new }
    {
        let code = self.code_for(id, code)?;
        self.reserve()?;
        Ok(self.stop_now(id, code)?)
    }

    // Asks the peer to stop its half of a stream, ends the session whose own stream it is, and forgets the stream if both
    // halves are over.
    #[tactic(auto, using(crate::proofs::KeepsLemmas::but, crate::proofs::KeepsLemmas::keeps_gone))]
    fn stop_now(&mut self, id: u64, code: u64) -> Result<(), AllocError>
        ensures keeps { KeepsBut id self.old self.new }
        ensures gone { OnOk result (theirs_at self.new.streams.entries id ≡ Gone) }
    {
        self.stop_fully(id, code)?;
        self.remove_if_done(id)
    }

    // Asks the peer to stop its half of a stream, and ends the session whose own stream it is.
    #[tactic(auto, using(crate::proofs::KeepsLemmas::but))]
    fn stop_fully(&mut self, id: u64, code: u64) -> Result<(), AllocError>
        ensures keeps { KeepsBut id self.old self.new }
        ensures gone { OnOk result (theirs_at self.new.streams.entries id ≡ Gone) }
    {
        self.cancel(id)?;
        self.end_if_session(id, code, !self.is_server())?;
        self.stop_peer(id, code)
    }

    /// Resets the own half of a stream and asks the peer to stop its half, with one code, as [`reset`](Self::reset) and
    /// [`stop_sending`](Self::stop_sending) do.
    ///
    /// # Errors
    ///
    /// As of [`reset`](Self::reset).
    #[tactic(auto, using(crate::proofs::ActLemmas::act, crate::proofs::ActLemmas::act_still, crate::proofs::ActLemmas::act_kept, crate::proofs::KeepsLemmas::kept, crate::proofs::LastsLemmas::lasts_refl))]
    pub fn abort(&mut self, id: u64, code: StreamCode) -> Result<(), Refused>
        ensures ends { OnOk result (EndsOwn id self.old.streams.entries self.new.streams.entries) }
        ensures gone { OnOk result (theirs_at self.new.streams.entries id ≡ Gone) }
        ensures fits { OnOk result (is_ok (code_on self.old id code) ≡ true) }
        ensures refused { IfErr result (λ e. IsRefusedBy (code_on self.old id code) e self.old self.new) }
        ensures own { Untouched self.old.streams.entries self.new.streams.entries }
        ensures left { Left self.old.streams.entries self.new.streams.entries }
        ensures config { self.new.config ≡ self.old.config }
        ensures goes { GoesOn [] self.old self.new }
        ensures lasts { LastsBut id self.old self.new }
        ensures works { WorksOn self.old self.new }
    {
        let code = self.code_for(id, code)?;
        self.reserve()?;
        Ok(self.abort_now(id, code)?)
    }

    // Ends both halves of a stream, and the session whose own stream it is, and forgets the stream.
    #[tactic(auto, using(crate::proofs::KeepsLemmas::but, crate::proofs::KeepsLemmas::keeps_ends, crate::proofs::KeepsLemmas::keeps_gone))]
    fn abort_now(&mut self, id: u64, code: u64) -> Result<(), AllocError>
        ensures keeps { KeepsBut id self.old self.new }
        ensures ends { OnOk result (EndsOwn id self.old.streams.entries self.new.streams.entries) }
        ensures gone { OnOk result (theirs_at self.new.streams.entries id ≡ Gone) }
    {
        self.abort_halves(id, code)?;
        self.remove_if_done(id)
    }

    // Ends both halves of a stream, and the session whose own stream it is.
    #[tactic(auto, using(crate::proofs::KeepsLemmas::but, crate::proofs::KeepsLemmas::keeps_ends))]
    fn abort_halves(&mut self, id: u64, code: u64) -> Result<(), AllocError>
        ensures keeps { KeepsBut id self.old self.new }
        ensures ends { OnOk result (EndsOwn id self.old.streams.entries self.new.streams.entries) }
        ensures gone { OnOk result (theirs_at self.new.streams.entries id ≡ Gone) }
    {
        self.cancel(id)?;
        self.reset_fully(id, code)?;
        self.stop_peer(id, code)
    }

    // Ends the session whose own stream this is, if it is one that is open or, with `always`, to come; and both halves of
    // the stream.
    #[tactic(auto, using(crate::proofs::KeepsLemmas::but))]
    fn end_if_session(&mut self, id: u64, code: u64, always: bool) -> Result<(), AllocError>
        ensures keeps { KeepsBut id self.old self.new }
    {
        let has_session = match self.streams.get(&id) {
            Some(entry) => entry.has_session,
            None => false,
        };
        if self.check_session(id).is_err() && !(always && has_session) {
            return Ok(());
        }
        self.reset_own(id, code)?;
        self.stop_peer(id, code)?;
        self.end_session(id)
    }

    // Returns the code of QUIC for one of the program's on a stream.
    fn code_for(&self, id: u64, code: StreamCode) -> Result<u64, Refused>
        ensures { result ≡ code_on self.now id code }
    {
        if self.ended.is_some() {
            return Err(Refused::Closed);
        }
        let Some(entry) = self.streams.get(&id) else {
            return Err(Refused::NoStream);
        };
        if entry.is_quiet {
            return Err(Refused::NoStream);
        }
        let is_of_application = matches!(code, StreamCode::Application(_));
        if entry.session.is_some() != is_of_application {
            return Err(Refused::WrongCode);
        }
        Ok(code.number())
    }

    // Returns whether there is a stream with this ID that a program may name: the peer's control stream, its streams of
    // QPACK and those that are ignored are none.
    fn is_named(&self, id: u64) -> bool
        ensures { result ≡ is_some (named_at self.now id) }
    {
        match self.streams.get(&id) {
            Some(entry) => !entry.is_quiet,
            None => false,
        }
    }

    /// Says whether the program wants no events of a stream for now. Bytes that come meanwhile are kept, and QUIC's
    /// windows are not extended by them. Where it changes, QUIC is told so by
    /// [`Output::Read`](crate::output::Output), once it has opened the stream.
    ///
    /// # Errors
    ///
    /// Nothing changes. `Closed`; `NoStream`; and `Memory`.
    #[tactic(auto, using(crate::proofs::ActLemmas::act, crate::proofs::ActLemmas::act_still, crate::proofs::ActLemmas::act_kept, crate::proofs::KeepsLemmas::kept, std::proofs::lemmas::Map::Steps::set_value_same, crate::proofs::GoesLemmas::goes_set, crate::proofs::PlaceLemmas::ordered, crate::proofs::JoinedLemmas::joined, crate::proofs::SendsLemmas::lasts_as_before, crate::proofs::SendsLemmas::lasting_same, crate::proofs::LastsLemmas::lasts_refl))]
    pub fn pause(&mut self, id: u64, paused: bool) -> Result<(), Refused>
        ensures ok { OnOk result (Pauses id paused self.old self.new) }
        ensures lives { OnOk result (is_over self.old ≡ false) }
        ensures looks { OnOk result (paused ≡ false → LooksAt id self.new) }
        ensures why { IfErr result (λ e. IsWhyNamed self.old id e) }
        ensures kept { OnErr result (IsStill self.old self.new) }
        ensures goes { GoesOn [] self.old self.new }
        ensures lasts { LastsOn [] self.old self.new }
        ensures works { WorksOn self.old self.new }
    {
        if self.ended.is_some() {
            return Err(Refused::Closed);
        }
        if !self.is_named(id) {
            return Err(Refused::NoStream);
        }
        self.reserve()?;
        if self.waiting.insert(id).is_err() {
            return Err(Refused::Memory);
        }
        let Some(entry) = self.streams.get_mut(&id) else {
            self.waiting.remove(&id);
            return Err(Refused::NoStream);
        };
        if entry.is_opened && entry.is_paused != paused {
            let read = Output::Read(id, !paused);
            if self.outputs.push_back(read).is_err() {
                return Err(Refused::Memory);
            }
        }
        entry.is_paused = paused;
        if !paused {
            self.wake();
        }
        Ok(())
    }

    /// Sets the priority of a stream (RFC 9218, section 4). A stream of a session has urgency 3 and is incremental, and
    /// any other has urgency 3 and is not. QUIC is told so by [`Output::Prioritize`](crate::output::Output), once it has
    /// opened the stream.
    ///
    /// # Errors
    ///
    /// Nothing changes. `Closed`; `NoStream`; and `Memory`.
    #[tactic(auto, using(crate::proofs::ActLemmas::act, crate::proofs::ActLemmas::act_still, crate::proofs::ActLemmas::act_kept, crate::proofs::KeepsLemmas::kept, std::proofs::lemmas::Map::Steps::set_value_same, crate::proofs::GoesLemmas::goes_set, crate::proofs::MovedLemmas::ordered_moved, crate::proofs::SendsLemmas::lasts_as_before, crate::proofs::SendsLemmas::lasting_same, crate::proofs::LastsLemmas::lasts_refl))]
    pub fn prioritize(&mut self, id: u64, priority: Priority) -> Result<(), Refused>
        ensures ok { OnOk result (Prioritizes id priority self.old self.new) }
        ensures lives { OnOk result (is_over self.old ≡ false) }
        ensures why { IfErr result (λ e. IsWhyNamed self.old id e) }
        ensures kept { OnErr result (IsStill self.old self.new) }
        ensures goes { GoesOn [] self.old self.new }
        ensures lasts { LastsOn [] self.old self.new }
        ensures works { WorksOn self.old self.new }
    {
        if self.ended.is_some() {
            return Err(Refused::Closed);
        }
        if !self.is_named(id) {
            return Err(Refused::NoStream);
        }
        self.outputs.reserve(1)?;
        let Some(entry) = self.streams.get_mut(&id) else {
            return Err(Refused::NoStream);
        };
        move_place(&mut self.ready, id, entry, priority)?;
        entry.priority = priority;
        if !entry.is_opened {
            return Ok(());
        }
        self.outputs
            .push_back_reserved(Output::Prioritize(id, priority));
        Ok(())
    }

    /// Gives a stream a number, which each of its events has.
    ///
    /// # Errors
    ///
    /// `NoStream`.
    #[tactic(auto, using(crate::proofs::ActLemmas::act, crate::proofs::ActLemmas::act_still, crate::proofs::ActLemmas::act_kept, crate::proofs::KeepsLemmas::kept, std::proofs::lemmas::Map::Steps::set_value_same, crate::proofs::GoesLemmas::goes_set, crate::proofs::PlaceLemmas::ordered, crate::proofs::JoinedLemmas::joined, crate::proofs::SendsLemmas::lasts_as_before, crate::proofs::SendsLemmas::lasting_same, crate::proofs::LastsLemmas::lasts_refl))]
    pub fn set_user(&mut self, id: u64, user: u64) -> Result<(), Refused>
        ensures ok { OnOk result (Becomes id (λ e. record e { user = Some user }) self.old self.new) }
        ensures err { IfErr result (λ e. (e ≡ refused.NoStream) × (named_at self.old id ≡ None)) }
        ensures kept { OnErr result (IsStill self.old self.new) }
        ensures goes { GoesOn [] self.old self.new }
        ensures lasts { LastsOn [] self.old self.new }
        ensures works { WorksOn self.old self.new }
    {
        if !self.is_named(id) {
            return Err(Refused::NoStream);
        }
        let Some(entry) = self.streams.get_mut(&id) else {
            return Err(Refused::NoStream);
        };
        entry.user = Some(user);
        Ok(())
    }
}
