//! Streams of frames: recorded ones, and each rule of the standard. Tests over the public crates;
//! there is no product code here.
#![tactic(auto)]

#[cfg(test)]
mod bounds;
#[cfg(test)]
mod control_streams;
#[cfg(test)]
mod interims;
#[cfg(test)]
mod messages;
#[cfg(test)]
mod reading;
#[cfg(test)]
mod recorded;
#[cfg(test)]
mod same;
#[cfg(test)]
mod tunnels;
