//! Header maps, and the requests and responses of sessions. Tests over the public crates; there
//! is no product code here.
#![tactic(auto)]

#[cfg(test)]
mod fault_codes;
#[cfg(test)]
mod field_lists;
#[cfg(test)]
mod header_maps;
#[cfg(test)]
mod requests;
#[cfg(test)]
mod response_frames;
#[cfg(test)]
mod responses;
#[cfg(test)]
mod same;
#[cfg(test)]
mod sent_sections;
#[cfg(test)]
mod session_errors;
