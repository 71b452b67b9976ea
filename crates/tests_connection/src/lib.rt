//! Streams of a connection: what they are for, what ends them, and streams that wait. Tests over
//! the public crates; there is no product code here.
#![tactic(auto)]

#[cfg(test)]
mod begun;
#[cfg(test)]
mod budgets;
#[cfg(test)]
mod datagrams;
#[cfg(test)]
mod interims;
#[cfg(test)]
mod qpack;
#[cfg(test)]
mod reading;
#[cfg(test)]
mod requests;
#[cfg(test)]
mod resets;
#[cfg(test)]
mod resumed;
#[cfg(test)]
mod same;
#[cfg(test)]
mod sessions;
#[cfg(test)]
mod settings;
#[cfg(test)]
mod stops;
#[cfg(test)]
mod streams;
