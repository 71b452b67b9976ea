//! Numbers, buffers, frames and stream headers, read and written poll by poll.

mod buffered;
mod bytes;
mod frame_answers;
mod frame_writings;
mod frames;
mod readings;
mod stream_headers;
mod writings;
