//! What an end announced on its control stream.

use crate::reading::payload_of;
use std::alloc::{AllocError, Global};
use vesgrauf::config::Config;
use vesgrauf::{PeerSettings, Side};
use wt_inspection::item::{FrameItem, Parts, Signal};
use wt_inspection::{Content, Inspecting, Item, Recorded};

/// The frame types of a control stream that matter here (RFC 9114, section 7.2).
const SETTINGS: u64 = 0x04;

const GOAWAY: u64 = 0x07;

const MAX_PUSH_ID: u64 = 0x0d;

/// The largest field section, in bytes, of an end whose SETTINGS have no limit.
const MAX_FIELDS: u64 = 0x100_0000;

/// The capacity of the dynamic table that an end allows whose SETTINGS are not recorded.
const MAX_TABLE: u64 = 65_536;

/// What an end announced on its control stream, as far as that is recorded.
#[derive(Clone, Copy)]
pub(crate) struct Terms {
    /// Its SETTINGS.
    pub(crate) settings: Option<PeerSettings>,
    /// The ID of its last GOAWAY.
    pub(crate) goaway: Option<u64>,
    /// Whether it allows pushes.
    pub(crate) allows_pushes: bool,
}

impl Terms {
    /// Creates the terms of an end that announced nothing yet.
    fn new(allows_pushes: bool) -> Self {
        Terms {
            settings: None,
            goaway: None,
            allows_pushes,
        }
    }

    /// Reads the control stream of an end. If it is not recorded, the end may have allowed pushes.
    ///
    /// Returns [`AllocError`] if allocation fails.
    pub(crate) fn read(alloc: Global, control: Option<&[u8]>) -> Result<Self, AllocError> {
        match control {
            Some(bytes) => terms_in(alloc, bytes),
            None => Ok(Terms::new(true)),
        }
    }

    /// Takes what an item of the control stream announces.
    fn take(&mut self, bytes: &[u8], item: &Item) {
        match &item.content {
            Content::Frame(frame) => self.take_frame(payload_of(bytes, item.at, frame), frame),
            _ => {}
        }
    }

    /// Takes what a frame with this payload announces.
    fn take_frame(&mut self, payload: &[u8], frame: &FrameItem) {
        match frame.number {
            SETTINGS => self.settings = self.settings.or(PeerSettings::read(payload).ok()),
            GOAWAY => self.goaway = id_in(&frame.parts).or(self.goaway),
            MAX_PUSH_ID => self.allows_pushes = true,
            _ => {}
        }
    }

    /// Returns the largest capacity of the dynamic table that the end allows.
    pub(crate) fn max_table(&self) -> u64 {
        match self.settings {
            Some(settings) => settings.qpack_max_table_capacity,
            None => MAX_TABLE,
        }
    }

    /// Returns whether the end allows an extended CONNECT: its SETTINGS say so, or enable WebTransport,
    /// for which it is.
    pub(crate) fn is_extended(&self) -> bool {
        match self.settings {
            Some(settings) => settings.enable_connect_protocol || enables_sessions(settings),
            None => true,
        }
    }

    /// Returns the largest capacity of the dynamic table that the end allows, where the encoder stream
    /// of its peer sets this one: without SETTINGS it is not known, so at least that is allowed.
    pub(crate) fn table_of(&self, capacity: u64) -> u64 {
        match self.settings {
            Some(settings) => settings.qpack_max_table_capacity,
            None => MAX_TABLE.max(capacity),
        }
    }

    /// Returns the configuration of the end, which allows a dynamic table of this capacity. How many
    /// streams wait for the dynamic table, how many sessions are open at once, and how many bytes wait, is
    /// not known of a recording, so that is not bounded.
    pub(crate) fn config(&self, side: Side, table: u64) -> Config {
        let mut config = match side {
            Side::Client => Config::client(),
            Side::Server => Config::server(),
        };
        config.webtransport = self.settings.is_none_or(enables_sessions);
        config.datagrams = self.settings.is_none_or(|settings| settings.h3_datagram);
        config.extended_connect = self.is_extended();
        config.max_field_section_size = u32::try_from(self.max_fields()).unwrap_or(u32::MAX);
        config.qpack_max_table_capacity = u32::try_from(table).unwrap_or(u32::MAX);
        config.qpack_blocked_streams = u16::MAX;
        config.encoder_table_capacity = 0;
        config.max_sessions = u32::MAX;
        config.max_streams = u64::MAX;
        config.max_unopened = u64::MAX;
        config.receive_buffer = usize::MAX;
        config.receive_buffer_all = usize::MAX;
        config.max_paused = usize::MAX;
        config.max_instructions = u64::MAX;
        config.tells_failures = true;
        config
    }

    /// Returns the largest field section that the end allows.
    fn max_fields(&self) -> u64 {
        let limit = match self.settings {
            Some(settings) => settings.max_field_section_size,
            None => None,
        };
        limit.unwrap_or(MAX_FIELDS)
    }
}

/// Returns what a control stream announces.
fn terms_in(alloc: Global, bytes: &[u8]) -> Result<Terms, AllocError> {
    let mut terms = Terms::new(false);
    let mut items = Inspecting::new(alloc, Recorded::Uni, bytes, true, None);
    for _item in 0..u64::MAX {
        match items.next()? {
            Some(item) => terms.take(bytes, &item),
            None => return Ok(terms),
        }
    }
    Ok(terms)
}

/// Returns the ID that is all of a frame.
fn id_in(parts: &Parts) -> Option<u64> {
    match parts {
        Parts::Signal(Signal::Id(id)) => Some(*id),
        _ => None,
    }
}

/// Returns whether settings enable WebTransport, in any of the drafts.
fn enables_sessions(settings: PeerSettings) -> bool {
    settings.enable_webtransport
        || settings.webtransport_max_sessions > 0
        || settings.wt_max_sessions > 0
}
