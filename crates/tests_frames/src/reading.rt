//! Reading a row piece by piece.
use crate::same::assert_same;
use std::process::Abort;
use wtp_core::error::ErrorScope;
use wtp_frames::endpoint::{Endpoint, Side};
use wtp_frames::fault::Fault;
use wtp_frames::reader::{Reader, Step};

/// A stream, and what is found on it.
pub(crate) struct Row {
    /// What it shows.
    pub(crate) case: &'static str,
    /// Whether it is a control stream; otherwise a message.
    pub(crate) control: bool,
    /// Whether a server reads it; otherwise a client.
    pub(crate) server: bool,
    /// Whether the own settings enable WebTransport.
    pub(crate) webtransport: bool,
    /// Its bytes.
    pub(crate) bytes: &'static [u8],
    /// How many frames are returned whole.
    pub(crate) frames: usize,
    /// How many payload bytes these have.
    pub(crate) whole: usize,
    /// How many bytes of DATA there are.
    pub(crate) data: usize,
    /// The code of its error, by its end too; 0 if there is none.
    pub(crate) code: u64,
    /// Whether the error ends the connection.
    pub(crate) ends_connection: bool,
}

/// A request that a server reads to its end, with WebTransport disabled: the base of other rows.
pub(crate) const REQUEST: Row = Row {
    case: "no frame",
    control: false,
    server: true,
    webtransport: false,
    bytes: &[],
    frames: 0,
    whole: 0,
    data: 0,
    code: 0,
    ends_connection: false,
};

/// The same for a message with an error of the connection.
pub(crate) const REFUSED_REQUEST: Row = Row {
    ends_connection: true,
    ..REQUEST
};

/// The same for a client's control stream, whose end is an error of the connection too.
pub(crate) const CONTROL: Row = Row {
    control: true,
    ends_connection: true,
    ..REQUEST
};

/// What was found on a stream.
#[derive(Clone, Copy, Debug, Drop, PartialEq, Eq)]
pub(crate) struct Summary {
    /// How many frames were returned whole.
    pub(crate) frames: usize,
    /// How many payload bytes these had.
    pub(crate) whole: usize,
    /// How many bytes of DATA there were.
    pub(crate) data: usize,
    /// How many sections were too large.
    pub(crate) too_large: usize,
    /// How many errors were returned.
    pub(crate) faults: usize,
    /// The code of the last one.
    pub(crate) code: u64,
    /// Whether it ends the connection.
    pub(crate) ends_connection: bool,
}

fn with_fault(found: Summary, fault: Fault) -> Summary {
    Summary {
        faults: found.faults.saturating_add(1),
        code: fault.code().number().into_inner(),
        ends_connection: matches!(fault.scope(), ErrorScope::Connection),
        ..found
    }
}

/// Returns the endpoint that reads a row.
pub(crate) fn endpoint_of(row: &Row) -> Endpoint {
    let side = if row.server {
        Side::Server
    } else {
        Side::Client
    };
    let mut endpoint = Endpoint::new(side);
    endpoint.webtransport = row.webtransport;
    endpoint
}

/// Returns what is found on a stream of which `size` bytes come at a time, and then its end. What
/// is left of a piece is passed again with the next one.
pub(crate) fn summary_of(reader: Reader, bytes: &[u8], size: usize) -> Summary {
    let mut reader = reader;
    let mut found = Summary {
        frames: 0,
        whole: 0,
        data: 0,
        too_large: 0,
        faults: 0,
        code: 0,
        ends_connection: false,
    };
    let mut start: usize = 0;
    let mut end: usize = 0;
    for _turn in 0..20000u32 {
        let piece = bytes.get(start..end).unwrap_or(&[]);
        match reader.next(piece) {
            Step::Frame(_, from, to) => {
                found.frames = found.frames.saturating_add(1);
                found.whole = found.whole.saturating_add(to.saturating_sub(from));
                start = start.saturating_add(to);
            }
            Step::Data(from, to) => {
                found.data = found.data.saturating_add(to.saturating_sub(from));
                start = start.saturating_add(to);
            }
            Step::TooLarge(_, n) => {
                found.too_large = found.too_large.saturating_add(1);
                start = start.saturating_add(n);
            }
            Step::Fault(fault) => {
                found = with_fault(found, fault);
                start = end;
            }
            Step::More(n) => {
                start = start.saturating_add(n);
                if end == bytes.len() {
                    return match reader.finish(end.saturating_sub(start)) {
                        Ok(()) => found,
                        Err(fault) => with_fault(found, fault),
                    };
                }
                end = end.saturating_add(size).min(bytes.len());
            }
        }
    }
    found
}

/// Asserts what is found on a row's stream, of which `size` bytes come at a time.
pub(crate) fn check_row<R: Abort>(rt: &R, row: &Row, size: usize) {
    let endpoint = endpoint_of(row);
    let reader = if row.control {
        Reader::control(endpoint)
    } else {
        Reader::message(endpoint)
    };
    let wanted = Summary {
        frames: row.frames,
        whole: row.whole,
        data: row.data,
        too_large: 0,
        faults: if row.code == 0 { 0 } else { 1 },
        code: row.code,
        ends_connection: row.ends_connection,
    };
    assert_same(rt, summary_of(reader, row.bytes, size), wanted, row.case);
}

/// Asserts what is found on the stream of each row, of which up to 64 bytes come at a time.
pub(crate) fn check_rows<R: Abort>(rt: &R, rows: &[Row]) {
    for row in rows {
        for size in 1..10usize {
            check_row(rt, row, size);
        }
        check_row(rt, row, 64);
    }
}
