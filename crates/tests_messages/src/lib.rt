//! Which requests, responses and trailers are malformed. Tests over the public crates; there is no
//! product code here.
#![tactic(auto)]

#[cfg(test)]
mod messages;
#[cfg(test)]
mod rows;
#[cfg(test)]
mod same;
