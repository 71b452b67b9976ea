//! QPACK's dynamic table: the example of the standard, faults of each kind, streams that are cut,
//! and refused memory. Tests over the public crates; there is no product code here.
#![tactic(auto)]

#[cfg(test)]
mod appendix;
#[cfg(test)]
mod decoders;
#[cfg(test)]
mod encoder_streams;
#[cfg(test)]
mod encoders;
#[cfg(test)]
mod policies;
#[cfg(test)]
mod sections;
#[cfg(test)]
mod streams;
