//! Lists of recorded connections, and what their streams are for. Tests over the public crates; there
//! is no product code here.
#![tactic(auto)]

#[cfg(test)]
mod lists;
#[cfg(test)]
mod pieces;
#[cfg(test)]
mod purposes;
#[cfg(test)]
mod same;
