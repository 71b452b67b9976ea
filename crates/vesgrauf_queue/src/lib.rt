//! What is to be sent on one stream, until QUIC takes it, or until it is acknowledged.
//!
//! 1. [`Queue::push`](queue::Queue::push) and [`push_owned`](queue::Queue::push_owned) queue bytes,
//!    [`finish`](queue::Queue::finish) the end, and [`reset`](queue::Queue::reset) drops what waits.
//! 2. [`next`](queue::Queue::next) shows what QUIC is to take, and [`sent`](queue::Queue::sent) says how much it took.
//! 3. [`acked`](queue::Queue::acked) frees what is kept until it is acknowledged. A queue is dropped when QUIC has closed
//!    the stream, and never before.
//! 4. [`admits`](queue::Queue::admits) says whether it is full, and
//!    [`take_writable`](queue::Queue::take_writable) when there is room again.
//!
//! Blocks that are freed are used again by all queues of a connection, through its [`Spares`](spares::Spares).
#![tactic(auto)]

mod blocks;
pub mod config;
pub mod ending;
pub mod error;
pub mod laws;
pub mod next;
pub mod queue;
pub mod spares;
