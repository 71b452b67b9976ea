//! Requests that are malformed, or whose fields are too large.
ghost use Rattle.std.specs.Prelude.{◌≡◌, IfOk, true, false, [], OnOk};
ghost use Rattle.vesgrauf.specs.Keeps.{Keeps, KeepsOwn, KeepsOwnBut};
ghost use Rattle.vesgrauf.specs.State.{knows_of, stream_at};
ghost use Rattle.vesgrauf.specs.Theirs.{Left, IsSilent};
ghost use Rattle.vesgrauf.specs.Told.{said_by};
ghost use Rattle.vesgrauf.specs.declared.config.OnMalformed.TheVariants as chosen;
ghost use Rattle.vesgrauf.specs.Works.{WorksOn};

use crate::config::OnMalformed;
use crate::connection::{Connection, Step, Stop};
use crate::event::Why;
use std::alloc::AllocError;
use wtp_core::error::Code;
use wtp_core::ids::StatusCode;
use wtp_fields::fields::FieldList;
use wtp_messages::malformed::Malformed;
use wtp_messages::response::Asked;

#[tactic(auto, using(crate::proofs::KeepsLemmas::keep))]
impl Connection {
    // A message is malformed: its stream is reset, after an answer or not (RFC 9114, section 4.1.2).
    #[tactic(auto, using(crate::proofs::ActLemmas::act, crate::proofs::KeepsOwnLemmas::hold, crate::proofs::StepLemmas::left_trans))]
    pub(super) fn malformed_came(&mut self, id: u64, rule: Malformed) -> Result<Step<'static>, Stop>
        ensures keeps { KeepsOwn (said_by result) self.old self.new }
        ensures works { OnOk result (WorksOn self.old self.new) }
        ensures left { Left self.old.streams.entries self.new.streams.entries }
        ensures silent { IfOk result IsSilent }
    {
        self.end_session(id)?;
        self.tell_closed(id, Why::Malformed(rule))?;
        let code = Code::H3_MESSAGE_ERROR;
        self.leave_refused(id, StatusCode::BAD_REQUEST, code, code)?;
        Ok(Step::More)
    }

    // A field section is larger than the limits (RFC 9114, section 4.2.2).
    #[tactic(auto, using(crate::proofs::ActLemmas::act, crate::proofs::KeepsOwnLemmas::hold, crate::proofs::StepLemmas::left_trans))]
    pub(super) fn too_large_came(&mut self, id: u64) -> Result<Step<'static>, Stop>
        ensures keeps { KeepsOwn (said_by result) self.old self.new }
        ensures works { OnOk result (WorksOn self.old self.new) }
        ensures left { Left self.old.streams.entries self.new.streams.entries }
        ensures silent { IfOk result IsSilent }
    {
        self.end_session(id)?;
        self.tell_closed(id, Why::TooLarge)?;
        let status = StatusCode::REQUEST_HEADER_FIELDS_TOO_LARGE;
        self.leave_refused(id, status, Code::H3_NO_ERROR, Code::H3_EXCESSIVE_LOAD)?;
        Ok(Step::More)
    }

    // Leaves a stream that is over for the program: its halves end.
    #[tactic(auto, using(crate::proofs::ActLemmas::act, crate::proofs::KeepsOwnLemmas::hold, crate::proofs::KeepsOwnLemmas::hold_but, crate::proofs::KeepsOwnLemmas::hold_unknown, crate::proofs::StepLemmas::left_trans))]
    fn leave_refused(
        &mut self,
        id: u64,
        status: StatusCode,
        answered: Code,
        refused: Code,
    ) -> Result<(), AllocError>
        ensures keeps { knows_of (stream_at self.old id) ≡ false → KeepsOwn [] self.old self.new }
        ensures works { OnOk result (WorksOn self.old self.new) }
        ensures left { Left self.old.streams.entries self.new.streams.entries }
    {
        self.end_refused(id, status, answered, refused)?;
        self.leave(id)
    }

    // Ends the own half with an answer of this status, and asks the peer to stop with the first code; or ends both halves
    // with the second.
    #[tactic(auto, using(crate::proofs::ActLemmas::act, crate::proofs::KeepsOwnLemmas::hold, crate::proofs::KeepsOwnLemmas::hold_but, crate::proofs::StepLemmas::left_trans))]
    fn end_refused(
        &mut self,
        id: u64,
        status: StatusCode,
        answered: Code,
        refused: Code,
    ) -> Result<(), AllocError>
        ensures keeps { KeepsOwnBut id self.old self.new }
        ensures works { OnOk result (WorksOn self.old self.new) }
        ensures left { Left self.old.streams.entries self.new.streams.entries }
    {
        if self.answers(id, status) {
            return self.stop_peer(id, answered.number().into_inner());
        }
        self.end_halves(id, refused.number().into_inner())
    }

    // Answers a request with this status, if the configuration says so. Returns whether it did: without memory, and after
    // another final response, it does not.
    #[tactic(auto, using(crate::proofs::ActLemmas::act, crate::proofs::KeepsOwnLemmas::hold, crate::proofs::KeepsOwnLemmas::holds_answered, crate::proofs::KeepsLemmas::kept, crate::proofs::StepLemmas::left_trans))]
    fn answers(&mut self, id: u64, status: StatusCode) -> bool
        ensures keeps { KeepsOwnBut id self.old self.new }
        ensures works { WorksOn self.old self.new }
        ensures left { Left self.old.streams.entries self.new.streams.entries }
    {
        if !self.may_answer() {
            return false;
        }
        self.note_other(id);
        match FieldList::response(self.alloc, status) {
            Ok(list) => self.respond(id, &list, true).is_ok(),
            Err(_) => false,
        }
    }

    // Returns whether a server is to answer, by the configuration.
    fn may_answer(&self) -> bool
        ensures { result ≡ true → self.now.config.on_malformed ≡ chosen.Reset → ⊥ }
    {
        match self.config.on_malformed {
            OnMalformed::Reset => false,
            OnMalformed::Answer => self.is_server(),
        }
    }

    // The answer on a stream is that to a request for nothing else.
    #[tactic(auto, using(crate::proofs::KeepsLemmas::keep, crate::proofs::OwnLemmas::own_asked, crate::proofs::PlaceLemmas::ordered, crate::proofs::JoinedLemmas::joined, crate::proofs::SeveredLemmas::stays_half, crate::proofs::SeveredLemmas::out_asked))]
    fn note_other(&mut self, id: u64)
        ensures keeps { Keeps [] self.old self.new }
    {
        if let Some(entry) = self.streams.get_mut(&id) {
            entry.writing.ask(Asked::Other);
        }
    }
}
