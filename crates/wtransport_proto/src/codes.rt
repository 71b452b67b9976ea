//! The error codes of stream errors and of failed exchanges.
ghost use Rattle.std.specs.Prelude.{◌≡◌};
ghost use Rattle.wtransport_proto.specs.StreamCodes.{stream_code, receive_code, exchange_code};

use crate::exchange::{ExchangeError, ReceiveError};
use crate::stream::IoReadError;
use wtp_core::error::ErrorCode;
use wtp_wire::frame::FrameKind;

impl IoReadError {
    /// Returns the error code of `H3`. For `IO` there is none: the source gave no more bytes, and
    /// did not end inside a frame or a header.
    pub fn code(&self) -> Option<ErrorCode>
        ensures { result ≡ stream_code self.now }
    {
        match self {
            IoReadError::H3(code) => Some(*code),
            IoReadError::IO(_) => None,
        }
    }
}

impl ReceiveError {
    /// Returns the error code if what was received is invalid. A DATA frame before the HEADERS
    /// frame of a message is not permitted (RFC 9114, section 4.1).
    ///
    /// Returns `None` if nothing invalid was received: the source was not ready, or gave no more
    /// bytes and did not end inside a frame; memory allocation failed; or the frame is of another
    /// kind.
    pub fn code(&self) -> Option<ErrorCode>
        ensures { result ≡ receive_code self.now }
    {
        match self {
            ReceiveError::Stream(fault) => fault.code(),
            ReceiveError::Section(refused) => refused.code(),
            ReceiveError::OtherKind(FrameKind::Data) => Some(ErrorCode::FrameUnexpected),
            ReceiveError::OtherKind(_) | ReceiveError::Waiting | ReceiveError::Memory => None,
        }
    }
}

impl ExchangeError {
    /// Returns the error code if what was received is invalid, as [`ReceiveError::code`] does, or
    /// `None` if the exchange ended before anything was received.
    pub fn code(&self) -> Option<ErrorCode>
        ensures { result ≡ exchange_code self.now }
    {
        match self {
            ExchangeError::Receive(error) => error.code(),
            ExchangeError::Frame(_) | ExchangeError::Send(_) => None,
        }
    }
}
