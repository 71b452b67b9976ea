//! Listings of recorded streams, and the program that prints them. Tests over the public crates;
//! there is no product code here.
#![tactic(auto)]

#[cfg(test)]
mod devices;
#[cfg(test)]
mod listings;
#[cfg(test)]
mod programs;
#[cfg(test)]
mod requests;
#[cfg(test)]
mod rows;
#[cfg(test)]
mod same;
#[cfg(test)]
mod stepped;
