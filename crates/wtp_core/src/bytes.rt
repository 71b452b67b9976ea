//! Readers and writers of bytes: complete ones over slices and vectors, and polled ones over any
//! source or sink.
pub mod buffer_reader;
pub mod buffer_writer;
pub mod child;
pub mod error;
pub mod get;
pub mod poll;
pub mod put;
pub mod reader;
pub mod sink;
pub mod source;
pub mod writer;

pub use buffer_reader::BufferReader;
pub use buffer_writer::BufferWriter;
pub use child::{BufferReaderChild, ParentReader};
pub use error::{IoReadError, IoWriteError};
pub use get::{BytesReaderAsync, GetBuffer, GetVarint};
pub use poll::{Polled, Stepped};
pub use put::{BytesWriterAsync, PutBuffer, PutVarint};
pub use reader::BytesReader;
pub use sink::{AsyncWrite, WriteStep};
pub use source::{AsyncRead, ReadStep};
pub use writer::{BytesWriter, PutError};

/// A slice has too few bytes left, or too little space.
#[derive(Debug, Drop, PartialEq, Eq, thiserror::Error)]
#[error("end of buffer has been reached")]
pub struct EndOfBuffer;
