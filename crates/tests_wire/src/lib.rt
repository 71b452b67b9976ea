//! Frames, capsules, settings and stream headers, read and written at once and poll by poll.
//! Tests over the public crates; there is no product code here.
#![tactic(auto)]

#[cfg(test)]
mod capsule_cursors;
#[cfg(test)]
mod capsule_readings;
#[cfg(test)]
mod capsules;
#[cfg(test)]
mod fault_codes;
#[cfg(test)]
mod first_pairs;
#[cfg(test)]
mod frames;
#[cfg(test)]
mod polled;
#[cfg(test)]
mod printed;
#[cfg(test)]
mod same;
#[cfg(test)]
mod setting_pairs;
#[cfg(test)]
mod settings;
#[cfg(test)]
mod settings_listed;
#[cfg(test)]
mod stream_headers;
#[cfg(test)]
mod texts;
