//! What an endpoint of this library would have said of a recorded connection: what one end sent is
//! played to a [`Connection`](vesgrauf::connection::Connection) of the other end, which judges it by
//! the rules of streams together. [`judge`](judge::judge) returns what it found.
//!
//! A recording does not say in which order its streams came, and how long something waited. So they
//! come in an order in which all is judged that can be: SETTINGS, then the requests, each after the
//! insertions into the dynamic table that its header section needs, then the streams of sessions and
//! the datagrams, and last the ends of the sessions and what else the control stream has. What the
//! order alone decides is no fault: how many streams wait for the table, how many sessions are open
//! at once, and what comes after GOAWAY.
//!
//! The end that judges has the SETTINGS that it sent, as far as the recording has them, and allows
//! what a recording without them does not say. It sends the requests that it sent there, and answers
//! requests with the recorded status.
#![tactic(auto)]

mod asked;
mod case;
mod findings;
pub mod judge;
mod player;
mod reading;
mod stream;
mod terms;
mod turn;
pub mod verdict;
mod words;
