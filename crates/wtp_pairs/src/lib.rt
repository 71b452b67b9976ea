//! Laws about both ends of a connection: what one end sends, by `wtp_sending`, the other end receives as
//! these events, by `wtp_webtransport`, however the bytes are cut. There is no product code here.
#![tactic(auto)]

pub mod laws;
