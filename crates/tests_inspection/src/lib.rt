//! Inspections of recorded bytes, and their display as text, JSON and pages. Tests over the
//! public crates; there is no product code here.
#![tactic(auto)]

#[cfg(test)]
mod display;
#[cfg(test)]
mod inspections;
#[cfg(test)]
mod rules;
#[cfg(test)]
mod same;
#[cfg(test)]
mod shown;
#[cfg(test)]
mod tables;
#[cfg(test)]
mod values;
