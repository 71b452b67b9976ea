//! Whether anything is left to be told.
ghost use Rattle.std.specs.Prelude.{◌≡◌, true, OnOk};
ghost use Rattle.vesgrauf.specs.Progress.{IsInstructed, IsQuiet, IsStill, IsSettled};

use crate::connection::Connection;
use crate::input::Input;
use std::alloc::AllocError;

impl Connection {
    // Checks that nothing is left to be told. If something were, the call would have to be made again.
    pub(super) fn check_settled(&self, input: &Input<'_>) -> Result<(), AllocError>
        ensures { OnOk result (IsSettled self.now input.now) }
    {
        if self.is_settled(input) {
            Ok(())
        } else {
            Err(AllocError)
        }
    }

    // Returns whether nothing is left to be told.
    #[tactic(auto, using(crate::proofs::ProgressLemmas::quiet_settled, crate::proofs::ProgressLemmas::over_settled))]
    fn is_settled(&self, input: &Input<'_>) -> bool
        ensures { result ≡ true → IsSettled self.now input.now }
    {
        if !input.is_taken() {
            return false;
        }
        match self.ended {
            Some(ended) => ended.is_told && self.events.is_empty(),
            None => self.has_nothing_before() && self.has_nothing_else(),
        }
    }

    // Returns whether nothing is due before an input. What is to be said for QPACK may wait for the ID of its stream.
    fn has_nothing_before(&self) -> bool
        ensures { result ≡ true → IsQuiet self.now }
    {
        self.ended.is_none()
            && self.events.is_empty()
            && self.pending.resumed.is_none()
            && !self.pending.begins_table
            && self.datagrams.opened.is_empty()
            && self.is_instructed()
            && self.unplaced.is_none()
    }

    // Returns whether what is to be said for QPACK is queued on the own streams, as far as these have IDs.
    fn is_instructed(&self) -> bool
        ensures { result ≡ true → IsInstructed self.now }
    {
        (self.told.is_empty() || self.decoder.id.is_none())
            && (self.tools.instructions.is_empty() || self.encoder.id.is_none())
    }

    // Returns whether nothing is due without an input. A connection that is shut down may wait until nothing is left of it.
    fn has_nothing_else(&self) -> bool
        ensures { result ≡ true → IsStill self.now }
    {
        !self.pending.is_woken
            && !self.pending.has_room
            && self.pending.unprocessed.is_none()
            && !(self.is_leaving && self.is_idle())
    }
}
