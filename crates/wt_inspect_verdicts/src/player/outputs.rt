//! What QUIC is to do for the end that judges.

use super::{Player, done};
use crate::verdict::{Place, found_by_reset};
use std::alloc::AllocError;
use vesgrauf::output::Output;

impl<'a> Player<'a> {
    /// Does what QUIC is to do, in its order, and notes what that says of the peer.
    pub(super) fn take_outputs(&mut self) -> Result<(), AllocError> {
        for _output in 0..u64::MAX {
            match self.connection.output() {
                Some(output) => self.take_output(output)?,
                None => return Ok(()),
            }
        }
        Ok(())
    }

    /// Does what QUIC is to do first.
    fn take_output(&mut self, output: Output) -> Result<(), AllocError> {
        match output {
            Output::Open { id, .. } => done(self.connection.opened(id)),
            Output::Reset(id, code) => {
                self.note_reset(id, code)?;
                done(self.connection.output_taken())
            }
            _ => done(self.connection.output_taken()),
        }
    }

    /// Notes what the reset of a stream with this code says of the peer.
    fn note_reset(&mut self, id: u64, code: u64) -> Result<(), AllocError> {
        match found_by_reset(code, self.closed.contains(&id)) {
            Some(finding) => self.findings.find(Place::Stream(id), finding),
            None => Ok(()),
        }
    }
}
