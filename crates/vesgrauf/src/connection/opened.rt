//! Own streams that QUIC has opened.
ghost use Rattle.std.specs.Prelude.{◌≡◌, ◌⊎◌, ◌<◌, ◌^◌, [], true, false, min, nat_lt, Some, OnOk, IfErr, if◌then◌else◌};
ghost use Rattle.vesgrauf.specs.Keeps.{Keeps};
ghost use Rattle.vesgrauf.specs.declared.refused.Refused.TheVariants as refused;
ghost use Rattle.vesgrauf.specs.State.{is_opened_at, opened_by, stream_at, view_of};
ghost use Rattle.vesgrauf.specs.Own.{Untouched};
ghost use Rattle.vesgrauf.specs.Places.{has_more};
ghost use Rattle.vesgrauf.specs.Theirs.{Left};
ghost use Rattle.vesgrauf.specs.Told.{GoesOn};
ghost use Rattle.vesgrauf.specs.Halves.{LastsOn};
ghost use Rattle.vesgrauf.specs.Ids.{next_own, opens, kind_of, unopened, opened as opened_ids};
ghost use Rattle.vesgrauf.specs.Works.{WorksOn};

use crate::connection::Connection;
use crate::connection::placing::give_place;
use crate::output::{Output, StreamKind};
use crate::refused::Refused;
use std::alloc::AllocError;

#[tactic(auto, using(crate::proofs::KeepsLemmas::keep))]
impl Connection {
    /// QUIC has opened the stream of [`Output::Open`](crate::output::Output), with this ID.
    ///
    /// # Errors
    ///
    /// `NotAsked` if another stream was to be opened: nothing changes, and QUIC's connection has streams that are not of
    /// this one. `Memory`: nothing changes, and the call is to be made again.
    #[tactic(auto, using(crate::proofs::ActLemmas::act, crate::proofs::ActLemmas::act_still, crate::proofs::ActLemmas::act_kept, crate::proofs::KeepsLemmas::kept, crate::proofs::LastsLemmas::lasts_refl))]
    pub fn opened(&mut self, id: u64) -> Result<(), Refused>
        ensures asked { OnOk result (opens self.old.ids id ≡ true) }
        ensures counted { OnOk result (id < 2 ^ 62 → self.new.ids ≡ opened_ids self.old.ids (kind_of id)) }
        ensures here { OnOk result (is_opened_at self.new id ≡ true) }
        ensures refused { IfErr result (λ e. (e ≡ refused.Memory)
            ⊎ ((opens self.old.ids id ≡ false) × (e ≡ refused.NotAsked) × (self.new ≡ self.old))) }
        ensures own { Untouched self.old.streams.entries self.new.streams.entries }
        ensures left { Left self.old.streams.entries self.new.streams.entries }
        ensures config { self.new.config ≡ self.old.config }
        ensures goes { GoesOn [] self.old self.new }
        ensures lasts { LastsOn [] self.old self.new }
        ensures works { WorksOn self.old self.new }
    {
        if !self.ids.opens(id) {
            return Err(Refused::NotAsked);
        }
        self.reserve()?;
        self.note_opened(id)?;
        let kind = StreamKind::of(id);
        self.count_opened(kind);
        Ok(self.tell_openable(kind)?)
    }

    // QUIC has opened the next stream of a kind.
    #[tactic(auto, using(crate::proofs::KeepsLemmas::keep, crate::proofs::IdLemmas::goes_unopened, crate::proofs::JoinedLemmas::joined_opened))]
    fn count_opened(&mut self, kind: StreamKind)
        ensures keeps { Keeps [] self.old self.new }
        ensures ids { self.new.ids ≡ (if nat_lt (unopened self.old.ids kind) (min (next_own self.old.ids kind) (2 ^ 62))
            then opened_ids self.old.ids kind else self.old.ids) }
        ensures counted { view_of self.new ≡ record (view_of self.old) { ids = self.new.ids } }
    {
        self.ids.was_opened(kind);
    }

    // QUIC has opened an own stream.
    fn note_opened(&mut self, id: u64) -> Result<(), AllocError>
        ensures keeps { Keeps [] self.old self.new }
        ensures ids { self.new.ids ≡ self.old.ids }
        ensures here { OnOk result (is_opened_at self.new id ≡ true) }
    {
        if self.control.is(id) {
            self.control.is_opened = true;
            return Ok(());
        }
        if self.decoder.is(id) {
            self.decoder.is_opened = true;
            return Ok(());
        }
        if self.encoder.is(id) {
            self.encoder.is_opened = true;
            return Ok(());
        }
        self.opened_message(id)
    }

    // QUIC has opened an own stream that is not critical.
    fn opened_message(&mut self, id: u64) -> Result<(), AllocError>
        ensures keeps { Keeps [] self.old self.new }
        ensures ids { self.new.ids ≡ self.old.ids }
        ensures here { OnOk result (opened_by (stream_at self.new id) ≡ true) }
        ensures control { self.new.control ≡ self.old.control }
        ensures decoder { self.new.decoder ≡ self.old.decoder }
        ensures encoder { self.new.encoder ≡ self.old.encoder }
    {
        self.place_opened(id)?;
        self.show_opened(id)
    }

    // QUIC has opened an own stream, which has its place in the order of sending if something waits on it.
    #[tactic(auto, using(crate::proofs::KeepsLemmas::keep, crate::proofs::PlaceLemmas::ordered, crate::proofs::JoinedLemmas::joined, crate::proofs::PlaceLemmas::ordered_quiet, crate::proofs::PlaceLemmas::ordered_blocked_on))]
    fn place_opened(&mut self, id: u64) -> Result<(), AllocError>
        ensures keeps { Keeps [] self.old self.new }
        ensures ids { self.new.ids ≡ self.old.ids }
        ensures here { OnOk result (opened_by (stream_at self.new id) ≡ true) }
        ensures control { self.new.control ≡ self.old.control }
        ensures decoder { self.new.decoder ≡ self.old.decoder }
        ensures encoder { self.new.encoder ≡ self.old.encoder }
    {
        let Some(entry) = self.streams.get_mut(&id) else {
            return Ok(());
        };
        if entry.is_blocked {
            entry.is_opened = true;
            return Ok(());
        }
        if !entry.has_more() {
            entry.is_opened = true;
            return Ok(());
        }
        self.unplaced = give_place(&mut self.ready, self.unplaced, id, entry)?;
        entry.is_opened = true;
        Ok(())
    }

    // QUIC has opened an own stream: it is asked what was to be asked of it.
    #[tactic(auto, using(crate::proofs::KeepsLemmas::keep, crate::proofs::PlaceLemmas::ordered, crate::proofs::JoinedLemmas::joined))]
    fn show_opened(&mut self, id: u64) -> Result<(), AllocError>
        ensures keeps { Keeps [] self.old self.new }
        ensures ids { self.new.ids ≡ self.old.ids }
        ensures here { opened_by (stream_at self.new id) ≡ opened_by (stream_at self.old id) }
        ensures control { self.new.control ≡ self.old.control }
        ensures decoder { self.new.decoder ≡ self.old.decoder }
        ensures encoder { self.new.encoder ≡ self.old.encoder }
    {
        let Some(entry) = self.streams.get_mut(&id) else {
            return Ok(());
        };
        if entry.is_paused {
            self.outputs.push_back(Output::Read(id, false))?;
        }
        if entry.is_prioritized() {
            self.outputs
                .push_back(Output::Prioritize(id, entry.priority))?;
        }
        if let Some(reset) = entry.writing.next_reset() {
            self.outputs.push_back(Output::Reset(id, reset.code))?;
        }
        if let Some(code) = entry.stops.take() {
            self.outputs.push_back(Output::StopSending(id, code))?;
        }
        Ok(())
    }
}
