//! Field lists of sections that refer to the dynamic table: recorded connections, faults, limits,
//! and refused memory. Tests over the public crates; there is no product code here.
#![tactic(auto)]

#[cfg(test)]
mod reading;
#[cfg(test)]
mod recorded;
#[cfg(test)]
mod results;
