//! What is written for messages, sessions and control streams. Tests over the public crates; there
//! is no product code here.
#![tactic(auto)]

#[cfg(test)]
mod control;
#[cfg(test)]
mod encoded;
#[cfg(test)]
mod messages;
#[cfg(test)]
mod same;
#[cfg(test)]
mod sessions;
