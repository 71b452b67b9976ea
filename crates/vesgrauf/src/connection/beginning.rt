//! What a connection begins with.
use crate::config::Config;
use std::alloc::Global;
use wtp_dynamic_decoder::decoder::QpackDecoder;
use wtp_frames::endpoint::{Endpoint, Side};
use wtp_webtransport::connection::Connection as Shared;

// Returns the side of the peer.
pub(super) fn other_side(side: Side) -> Side {
    match side {
        Side::Client => Side::Server,
        Side::Server => Side::Client,
    }
}

// Returns what the peer's halves of a connection have in common.
pub(super) fn shared_for(alloc: Global, config: &Config) -> Shared {
    let mut endpoint = Endpoint::new(config.side);
    endpoint.webtransport = config.webtransport;
    endpoint.datagrams = config.datagrams;
    endpoint.max_section = config.max_field_section_size;
    let mut shared = Shared::new(endpoint, config.extended_connect);
    if config.qpack_max_table_capacity > 0 {
        shared.allow_table(QpackDecoder::new(
            alloc,
            u64::from(config.qpack_max_table_capacity),
            u64::from(config.qpack_blocked_streams),
        ));
    }
    shared
}
