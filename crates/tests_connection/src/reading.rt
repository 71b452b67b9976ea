//! Reading a stream of a connection piece by piece.
use wtp_connection::connection::{Connection, Found};
use wtp_connection::fields::Fields;
use wtp_connection::stream::Stream;
use wtp_core::error::ErrorScope;
use wtp_frames::endpoint::{Endpoint, Side};

/// What was found on a stream.
#[derive(Clone, Copy, Debug, Drop, PartialEq, Eq)]
pub(crate) struct Summary {
    /// How many frames were returned whole.
    pub(crate) frames: usize,
    /// How many bytes of DATA, or of the application, there were.
    pub(crate) data: usize,
    /// How often the end was returned.
    pub(crate) ends: usize,
    /// The code of the error; 0 if there is none.
    pub(crate) code: u64,
    /// Whether it ends the connection.
    pub(crate) ends_connection: bool,
    /// How many bytes are left over.
    pub(crate) left: usize,
}

/// Nothing was found.
pub(crate) const NOTHING: Summary = Summary {
    frames: 0,
    data: 0,
    ends: 0,
    code: 0,
    ends_connection: false,
    left: 0,
};

/// Returns a connection of a server, or of a client.
pub(crate) fn connection_of(server: bool, webtransport: bool) -> Connection {
    let side = if server { Side::Server } else { Side::Client };
    let mut endpoint = Endpoint::new(side);
    endpoint.webtransport = webtransport;
    Connection::new(endpoint)
}

/// Returns what is found on a stream of which `size` bytes come at a time, the last ones with the
/// end of the stream if it has one.
pub(crate) fn read(
    connection: &mut Connection,
    stream: &mut Stream,
    bytes: &[u8],
    size: usize,
    fin: bool,
) -> Summary {
    let mut fields = Fields::new();
    let mut found = NOTHING;
    let mut start: usize = 0;
    let mut end: usize = size.min(bytes.len());
    for _turn in 0..2000u32 {
        let piece = bytes.get(start..end).unwrap_or(&[]);
        let is_last = end == bytes.len();
        match connection.receive(stream, piece, fin && is_last, &mut fields) {
            Found::Opened(_, n) => start = start.saturating_add(n),
            Found::Settings(_, _, to) | Found::Frame(_, _, to) => {
                found.frames = found.frames.saturating_add(1);
                start = start.saturating_add(to);
            }
            Found::Data(from, to) => {
                found.data = found.data.saturating_add(to.saturating_sub(from));
                start = start.saturating_add(to);
            }
            Found::TooLarge(_, n) => start = start.saturating_add(n),
            Found::Fault(fault) => {
                found.code = fault.code().number().into_inner();
                found.ends_connection = matches!(fault.scope(), ErrorScope::Connection);
                start = end;
            }
            Found::End => {
                found.ends = found.ends.saturating_add(1);
                start = end;
            }
            Found::More(n) => {
                start = start.saturating_add(n);
                if is_last {
                    found.left = end.saturating_sub(start);
                    return found;
                }
                end = end.saturating_add(size).min(bytes.len());
            }
        }
    }
    found
}
