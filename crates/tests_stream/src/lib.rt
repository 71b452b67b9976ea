//! What is heard of a stream in chunks of each size, which of its bytes are copied, what is queued on an own half,
//! and which datagrams are kept for sessions to come. Tests over `vesgrauf_stream`; there is no product code here.
#![tactic(auto)]

#[cfg(test)]
mod chunks;
#[cfg(test)]
mod early;
#[cfg(test)]
mod hearing;
#[cfg(test)]
mod writing;
