//! Datagrams whose sessions are to come (RFC 9297, section 2.1; draft-ietf-webtrans-http3-02, section
//! 4.5).
ghost use Rattle.std.specs.Prelude.{◌≡◌, ◌==◌, ◌<◌, ◌≤◌, [], length, IfOk, OnErr, option_map};
ghost use Rattle.vesgrauf_stream.specs.Early.{keeps, takes};

use std::alloc::{AllocError, Global};
use std::marker::Model;

/// How many datagrams are kept.
const MAX_DATAGRAMS: usize = 16;

/// A datagram that is kept.
#[derive(Drop)]
struct Datagram {
    session: u64,
    payload: Vec<u8>,
}

/// The datagrams of a connection whose sessions are to come, in the order in which they came: at most
/// 16. Keep here what is [`Early`](wtp_connection::connection::datagrams::DatagramFor), and take it when
/// its session opens, or is refused. None is dropped by age: take those of a session that has not come
/// after about a round trip, too (RFC 9297, section 2.1).
#[derive(Drop)]
pub struct EarlyDatagrams {
    alloc: Global,
    datagrams: Vec<Datagram>,
}

// In contracts, they are a list: the session of each one and its payload.
impl Model for EarlyDatagrams {
    ghost use Rattle.std.specs.Prelude.{ℕ, ◌≤◌, List, length};
    ghost use Rattle.vesgrauf_stream.specs.Early.{all_kept};

    ghost Value = { List (ℕ × List ℕ) };

    ghost view = { λ early. all_kept early.datagrams.items };

    ghost invariant = { λ early. length early.datagrams.items ≤ 16 };
}

impl EarlyDatagrams {
    /// Creates the place for the datagrams of a connection. Nothing is allocated.
    pub fn new(alloc: Global) -> Self
        ensures { result ≡ [] }
    {
        EarlyDatagrams {
            alloc,
            datagrams: Vec::new(alloc),
        }
    }

    /// Returns how many datagrams are kept.
    pub fn len(&self) -> usize
        ensures len { result ≡ length self.now }
        ensures bound { result ≤ 16 }
    {
        self.datagrams.len()
    }

    /// Returns whether no datagram is kept.
    pub fn is_empty(&self) -> bool
        ensures { result ≡ (length self.now == 0) }
    {
        self.datagrams.is_empty()
    }

    /// Keeps the payload of a datagram of this session, which may be empty. Returns whether it is kept:
    /// if 16 are, it is dropped.
    ///
    /// # Errors
    ///
    /// If allocation fails, which needs fewer than 16 that are kept: nothing changes, and the datagram is
    /// to be dropped.
    pub fn keep(&mut self, session: u64, payload: &[u8]) -> Result<bool, AllocError>
        ensures kept { IfOk result (λ is_kept. (is_kept, self.new) ≡ keeps self.old session payload.now) }
        ensures memory { OnErr result (self.new ≡ self.old) }
        ensures room { OnErr result (length self.old < 16) }
    {
        if self.datagrams.len() >= MAX_DATAGRAMS {
            return Ok(false);
        }
        let payload = Vec::from_slice(self.alloc, payload)?;
        self.datagrams.push(Datagram { session, payload })?;
        Ok(true)
    }

    /// Takes the first datagram of this session, and returns its payload. Call it until `None`.
    pub fn take(&mut self, session: u64) -> Option<Vec<u8>>
        ensures { (option_map (λ payload. payload.items) result, self.new) ≡ takes session self.old }
    {
        for i in 0..self.datagrams.len() {
            if self.datagrams[i].session == session {
                return Some(self.datagrams.remove(i).payload);
            }
        }
        None
    }
}
