//! The requests that the end that judges sends, and its answers.

use super::{Player, done};
use crate::asked::{any_request, any_session};
use std::alloc::AllocError;
use std::collections::BTreeMap;
use std::mem;
use vesgrauf::code::StreamCode;
use vesgrauf::refused::Refused;
use wtp_core::error::Code;
use wtp_core::ids::StatusCode;
use wtp_fields::fields::FieldList;
use wtp_sending::error::SendError;

/// The status of an answer that is not recorded, to a request that waits for one.
const ACCEPTED: u32 = 200;

impl<'a> Player<'a> {
    /// Sends the requests of this end, in the order of their streams.
    pub(crate) fn ask(&mut self) -> Result<(), AllocError> {
        let requests = mem::replace(&mut self.requests, BTreeMap::new(self.alloc));
        let mut next: u64 = 0;
        for (id, list) in &requests {
            for _stream in 0..id.saturating_sub(next) / 4 {
                self.skip()?;
            }
            if !self.request(*id, list)? {
                self.unasked.push(*id)?;
                self.skip()?;
            }
            next = id.saturating_add(4);
        }
        Ok(())
    }

    /// Sends a request on a stream: one with these fields, or another if they are not those of a message
    /// that this end would send. Returns whether that is allowed.
    fn request(&mut self, id: u64, list: &FieldList) -> Result<bool, AllocError> {
        if list.first(b":method") == Some(b"CONNECT") {
            self.tunnels.push(id)?;
        }
        match self.connection.request(list, false) {
            Err(Refused::Send(SendError::Malformed(_))) => self.request_other(list),
            sent => is_sent(sent),
        }
    }

    /// Sends a request as one with these fields that is not malformed. Returns whether that is allowed.
    fn request_other(&mut self, list: &FieldList) -> Result<bool, AllocError> {
        let other = if list.first(b":protocol").is_some() {
            any_session(self.alloc)?
        } else {
            any_request(self.alloc)?
        };
        is_sent(self.connection.request(&other, false))
    }

    /// Leaves out the next stream: no session has its ID, and nothing is read of it.
    fn skip(&mut self) -> Result<(), AllocError> {
        let list = any_request(self.alloc)?;
        match self.connection.request(&list, false) {
            Ok(id) => {
                let code = StreamCode::Http(Code::H3_REQUEST_CANCELLED);
                done(self.connection.stop_sending(id, code))
            }
            Err(Refused::Memory) => Err(AllocError),
            Err(_) => Ok(()),
        }
    }

    /// Answers the request on a stream with the recorded status. Without one it is accepted if it waits
    /// for its answer.
    pub(super) fn answer(&mut self, id: u64, waits: bool) -> Result<(), AllocError> {
        let recorded = self.answers.get(&id).copied();
        let assumed = if waits {
            StatusCode::try_from_u32(ACCEPTED).ok()
        } else {
            None
        };
        if let Some(status) = recorded.or(assumed) {
            let list = FieldList::response(self.alloc, status)?;
            done(self.connection.respond(id, &list, false))?;
        }
        Ok(())
    }
}

/// Returns whether a request was sent. One that was refused changed nothing.
///
/// Returns [`AllocError`] if allocation failed.
fn is_sent(called: Result<u64, Refused>) -> Result<bool, AllocError> {
    match called {
        Ok(_) => Ok(true),
        Err(Refused::Memory) => Err(AllocError),
        Err(_) => Ok(false),
    }
}
