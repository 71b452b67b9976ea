//! Streams of each kind: opening, accepting, upgrading and writing them, from a buffer and poll
//! by poll. Reading from them is tested in `tests_reads`. There is no product code here.
#![tactic(auto)]

#[cfg(test)]
mod accepting;
#[cfg(test)]
mod bilocal;
#[cfg(test)]
mod biremote;
#[cfg(test)]
mod opened;
#[cfg(test)]
mod printed;
#[cfg(test)]
mod refused;
#[cfg(test)]
mod same;
#[cfg(test)]
mod session;
#[cfg(test)]
mod stepped;
#[cfg(test)]
mod unilocal;
#[cfg(test)]
mod uniremote;
#[cfg(test)]
mod written;
