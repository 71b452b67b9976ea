//! Messages and sessions of a connection: what each stream gives. Tests over the public crates; there
//! is no product code here.
#![tactic(auto)]

#[cfg(test)]
mod bounds;
#[cfg(test)]
mod datagrams;
#[cfg(test)]
mod endings;
#[cfg(test)]
mod messages;
#[cfg(test)]
mod peers;
#[cfg(test)]
mod playing;
#[cfg(test)]
mod sessions;
#[cfg(test)]
mod tables;
