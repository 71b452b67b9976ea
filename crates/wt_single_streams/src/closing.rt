//! What an endpoint closes after an error, and with which error code.
ghost use Rattle.std.specs.Prelude.{◌≡◌, ◌≢◌};
ghost use Rattle.wtransport_proto.specs.ErrorCodes.{code_number};
ghost use Rattle.wt_single_streams.specs.Closing.{closing_after, closing_for};

use wtransport_proto::error::{ErrorCode, ErrorScope};
use wtransport_proto::stream::IoReadError;
use wtransport_proto::varint::VarInt;

/// What an endpoint closes.
#[derive(Clone, Copy, Debug)]
pub enum Closing {
    /// Nothing: the peer ended or reset the stream, or the connection is lost.
    Nothing,
    /// The stream, with this error code.
    Stream(VarInt),
    /// The connection, with this error code.
    Connection(VarInt),
}

/// Returns what to close after an error in the frames of a stream.
pub fn after_fault(fault: &IoReadError) -> Closing
    ensures { result ≡ closing_after fault.now }
{
    match fault {
        IoReadError::H3(code) => after_code(*code),
        IoReadError::IO(_) => Closing::Nothing,
    }
}

/// Returns what to close after an error in the header of a unidirectional stream. The peer may
/// end a stream inside its header, and an unknown stream type closes only the stream (RFC 9114,
/// section 6.2).
pub fn after_header_fault(fault: &IoReadError) -> Closing
    ensures cut { fault.now ≡ IoReadError.H3 ErrorCode.Frame → result ≡ Closing.Nothing }
    ensures unknown { fault.now ≡ IoReadError.H3 ErrorCode.StreamCreation
        → result ≡ Closing.Stream (code_number ErrorCode.StreamCreation) }
    ensures other { fault.now ≢ IoReadError.H3 ErrorCode.Frame
        → fault.now ≢ IoReadError.H3 ErrorCode.StreamCreation
        → result ≡ closing_after fault.now }
{
    match fault {
        IoReadError::H3(ErrorCode::Frame) => Closing::Nothing,
        IoReadError::H3(ErrorCode::StreamCreation) => {
            Closing::Stream(ErrorCode::StreamCreation.to_code())
        }
        _ => after_fault(fault),
    }
}

/// Returns what to close for an error code. Codes that may close either close the connection
/// here.
pub fn after_code(code: ErrorCode) -> Closing
    ensures { result ≡ closing_for code }
{
    match code.scope() {
        ErrorScope::Stream => Closing::Stream(code.to_code()),
        ErrorScope::Connection | ErrorScope::Either => Closing::Connection(code.to_code()),
    }
}
