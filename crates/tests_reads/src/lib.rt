//! Reading frames from streams of each kind: from a buffer or a slice, poll by poll, driven, and
//! with a cursor over bytes that are split anywhere. Also datagrams, header maps over streams,
//! the first steps of a server, and recordings of real stacks. There is no product code here.
#![tactic(auto)]

#[cfg(test)]
mod answers;
#[cfg(test)]
mod cursor;
#[cfg(test)]
mod cursor_steps;
#[cfg(test)]
mod datagrams;
#[cfg(test)]
mod driven;
#[cfg(test)]
mod exchange;
#[cfg(test)]
mod fault_codes;
#[cfg(test)]
mod looped;
#[cfg(test)]
mod opened;
#[cfg(test)]
mod polled;
#[cfg(test)]
mod reads;
#[cfg(test)]
mod recordings;
#[cfg(test)]
mod rules;
#[cfg(test)]
mod same;
#[cfg(test)]
mod server;
#[cfg(test)]
mod states;
#[cfg(test)]
mod whole;
