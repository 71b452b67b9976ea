//! The queue of one stream, as QUIC sees it. Tests over the public crate; there is no product code here.
#![tactic(auto)]

#[cfg(test)]
mod bytes;
#[cfg(test)]
mod ends;
#[cfg(test)]
mod kept;
#[cfg(test)]
mod marks;
