//! What an end did and heard.
use anyhow::{Result, bail};
use std::alloc::Global;
use std::collections::{BTreeMap, BTreeSet};
use vesgrauf::Code;
use vesgrauf::code::StreamCode;

/// How a half of a stream is over.
#[derive(Clone, Copy, Debug, PartialEq, Eq)]
pub enum Over {
    /// It is not.
    Not,
    /// By its end.
    End,
    /// By a reset with this code, as QUIC sends it.
    Reset(u64),
}

/// A half of a stream: how many bytes were said or heard, and how it is over.
#[derive(Clone, Copy, Debug, PartialEq, Eq)]
pub struct Half {
    pub len: u64,
    pub over: Over,
}

const NOTHING: Half = Half {
    len: 0,
    over: Over::Not,
};

/// What an end did and heard.
#[derive(Drop)]
pub struct Journal {
    said: BTreeMap<u64, Half>,
    heard: BTreeMap<u64, Half>,
    /// The streams that the end was told of or opened, and whether each is closed.
    known: BTreeMap<u64, bool>,
    /// The streams of which not all is heard, or not all that was said goes on: stopped, given up, or their session is
    /// gone.
    pub disturbed: BTreeSet<u64>,
    /// The own streams of sessions.
    pub sessions: BTreeSet<u64>,
    /// The streams of sessions.
    pub in_session: BTreeSet<u64>,
    /// The numbers of the datagrams.
    pub datagrams_said: BTreeSet<u64>,
    pub datagrams_heard: BTreeSet<u64>,
    /// The codes with which sessions were closed.
    pub closes_said: BTreeMap<u64, u32>,
    pub closes_heard: BTreeMap<u64, u32>,
}

/// Returns the byte at a place of what an end says on a stream.
pub fn byte_at(id: u64, is_client: bool, at: u64) -> u8 {
    let side = if is_client { 17 } else { 0 };
    let mixed = id
        .wrapping_mul(31)
        .wrapping_add(at.wrapping_mul(7))
        .wrapping_add(at >> 8)
        .wrapping_add(side);
    (mixed & 0xff) as u8
}

impl Journal {
    /// Creates an empty journal.
    pub fn new(alloc: Global) -> Self {
        Journal {
            said: BTreeMap::new(alloc),
            heard: BTreeMap::new(alloc),
            known: BTreeMap::new(alloc),
            disturbed: BTreeSet::new(alloc),
            sessions: BTreeSet::new(alloc),
            in_session: BTreeSet::new(alloc),
            datagrams_said: BTreeSet::new(alloc),
            datagrams_heard: BTreeSet::new(alloc),
            closes_said: BTreeMap::new(alloc),
            closes_heard: BTreeMap::new(alloc),
        }
    }

    /// Returns what was said on a stream.
    pub fn said(&self, id: u64) -> Half {
        match self.said.get(&id) {
            Some(half) => *half,
            None => NOTHING,
        }
    }

    /// Returns what was heard on a stream.
    pub fn heard(&self, id: u64) -> Half {
        match self.heard.get(&id) {
            Some(half) => *half,
            None => NOTHING,
        }
    }

    /// Returns the streams on which something was said.
    pub fn said_on(&self) -> &BTreeMap<u64, Half> {
        &self.said
    }

    /// Returns the streams on which something was heard.
    pub fn heard_on(&self) -> &BTreeMap<u64, Half> {
        &self.heard
    }

    /// Notes bytes that were said, and the end.
    pub fn say(&mut self, id: u64, len: u64, fin: bool) -> Result<()> {
        let mut half = self.said(id);
        half.len = half.len.saturating_add(len);
        if fin {
            half.over = Over::End;
        }
        self.said.insert(id, half)?;
        Ok(())
    }

    /// Returns the code with which a half of a stream is given up.
    pub fn code(&self, id: u64) -> StreamCode {
        if self.in_session.contains(&id) {
            StreamCode::Application(5)
        } else {
            Code::H3_REQUEST_CANCELLED.into()
        }
    }

    /// Notes that the own half was reset.
    pub fn reset(&mut self, id: u64, code: u64) -> Result<()> {
        let mut half = self.said(id);
        if half.over == Over::Not {
            half.over = Over::Reset(code);
        } else {
            self.disturbed.insert(id)?;
        }
        self.said.insert(id, half)?;
        Ok(())
    }

    /// Notes bytes that were heard, and compares them with what the peer says.
    pub fn hear(&mut self, id: u64, by_client: bool, bytes: &[u8]) -> Result<()> {
        self.check_open(id)?;
        let mut half = self.heard(id);
        if half.over != Over::Not {
            bail!("stream {id}: bytes after the end");
        }
        for byte in bytes {
            if *byte != byte_at(id, by_client, half.len) {
                bail!("stream {id}: another byte at {}", half.len);
            }
            half.len = half.len.saturating_add(1);
        }
        self.heard.insert(id, half)?;
        Ok(())
    }

    /// Notes how the peer's half is over.
    pub fn hear_over(&mut self, id: u64, over: Over) -> Result<()> {
        self.check_open(id)?;
        let mut half = self.heard(id);
        if half.over != Over::Not {
            bail!("stream {id}: a second end");
        }
        half.over = over;
        self.heard.insert(id, half)?;
        Ok(())
    }

    /// Notes that the end was told of a stream, or opened it.
    pub fn know(&mut self, id: u64) -> Result<()> {
        if self.known.insert(id, false)?.is_some() {
            bail!("stream {id} is new again");
        }
        Ok(())
    }

    /// Returns whether the end was told of a stream, or opened it.
    pub fn knows(&self, id: u64) -> bool {
        self.known.contains_key(&id)
    }

    /// Notes that a stream is closed.
    pub fn close(&mut self, id: u64) -> Result<()> {
        match self.known.insert(id, true)? {
            Some(false) => Ok(()),
            Some(true) => bail!("stream {id} is closed again"),
            None => bail!("stream {id} is closed, and was not known"),
        }
    }

    /// Checks that a stream is known and not closed.
    pub fn check_open(&self, id: u64) -> Result<()> {
        match self.known.get(&id) {
            Some(false) => Ok(()),
            Some(true) => bail!("stream {id}: an event after Closed"),
            None => bail!("stream {id}: an event of a stream that is not known"),
        }
    }

    /// Checks that each stream is closed.
    pub fn check_closed(&self) -> Result<()> {
        for (id, is_closed) in &self.known {
            if !*is_closed {
                bail!("stream {id} is not closed");
            }
        }
        Ok(())
    }
}
