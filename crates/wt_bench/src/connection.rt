//! Reads a request of which `size` bytes come at a time, and its end with the last ones. Each call
//! returns the number of bytes of its body, or -1 if the bytes are invalid.

ghost use Rattle.std.specs.Prelude.{◌≡◌, ◌≢◌, pos, negsuc, IfOk, IfErr, IfSome};
ghost use Rattle.wt_bench.specs.Bodies.{IsWithin, GoesOn, request_size, size_from};

use wtp_connection::connection::{Connection, Found};
use wtp_connection::fields::Fields;
use wtp_connection::stream::Stream;
use wtp_frames::endpoint::{Endpoint, Side};
use wtp_frames::reader::{Reader, Step};

/// Returns this number of bytes.
fn answer(body: usize) -> i64
    ensures { result ≢ negsuc 0 → result ≡ pos body }
{
    i64::try_from(body).unwrap_or(-1)
}

/// Reads the request as a server's connection does. Its contract says nothing of the number, which
/// the driver compares.
#[unsafe(no_mangle)]
pub extern "C" fn wt_bench_connection(bytes: &[u8], size: usize) -> i64 {
    let mut connection = Connection::new(Endpoint::new(Side::Server));
    let mut stream = Stream::of_peer(0);
    let mut fields = Fields::new();
    let mut body: usize = 0;
    let mut start: usize = 0;
    let mut end = size.min(bytes.len());
    for _turn in 0..u64::MAX {
        if start == end {
            end = end.saturating_add(size).min(bytes.len());
        }
        let piece = bytes.get(start..end).unwrap_or(&[]);
        let is_last = end == bytes.len();
        match connection.receive(&mut stream, piece, is_last, &mut fields) {
            Found::Data(from, to) => {
                body = body.saturating_add(to.saturating_sub(from));
                start = start.saturating_add(to);
            }
            Found::Opened(_, n)
            | Found::Settings(_, _, n)
            | Found::Frame(_, _, n)
            | Found::TooLarge(_, n) => start = start.saturating_add(n),
            Found::More(n) => {
                if is_last {
                    return -1;
                }
                start = start.saturating_add(n);
                end = end.saturating_add(size).min(bytes.len());
            }
            Found::Fault(_) => return -1,
            Found::End => return answer(body),
        }
    }
    -1
}

/// How far a request was read.
#[derive(Clone, Copy)]
struct Progress {
    /// How many bytes are consumed.
    start: usize,
    /// How many bytes came.
    end: usize,
    /// How many bytes of the body there were.
    body: usize,
}

/// Takes the next step. Returns how far the request is read then. At its end the error is the number
/// of bytes of the whole body, or none if the bytes are invalid.
fn advance(
    reader: &mut Reader,
    bytes: &[u8],
    size: usize,
    at: Progress,
) -> Result<Progress, Option<usize>>
    requires { IsWithin at bytes.now }
    ensures read { IfOk result (λ p. GoesOn reader.old reader.new at p bytes.now) }
    ensures ended { IfErr result (λ end. IfSome end
        (λ n. n ≡ size_from reader.old at bytes.now)) }
{
    let Progress { start, end, body } = at;
    match reader.next(&bytes[start..end]) {
        Step::Data(from, to) => Ok(Progress {
            start: start + to,
            end,
            body: body + (to - from),
        }),
        Step::Frame(_, _, n) => Ok(Progress {
            start: start + n,
            end,
            body,
        }),
        Step::TooLarge(_, n) => Ok(Progress {
            start: start + n,
            end,
            body,
        }),
        Step::More(n) => {
            let start = start + n;
            if end == bytes.len() {
                return match reader.finish(end - start) {
                    Ok(()) => Err(Some(body)),
                    Err(_) => Err(None),
                };
            }
            let end = end.saturating_add(size).min(bytes.len());
            Ok(Progress { start, end, body })
        }
        Step::Fault(_) => Err(None),
    }
}

/// Reads the frames of the request alone.
#[unsafe(no_mangle)]
pub extern "C" fn wt_bench_message(bytes: &[u8], size: usize) -> i64
    ensures { result ≢ negsuc 0 → result ≡ pos (request_size bytes.now) }
{
    let mut reader = Reader::message(Endpoint::new(Side::Server));
    let mut at = Progress {
        start: 0,
        end: size.min(bytes.len()),
        body: 0,
    };
    for _turn in 0..u64::MAX {
        match advance(&mut reader, bytes, size, at) {
            Ok(next) => at = next,
            Err(Some(body)) => return answer(body),
            Err(None) => return -1,
        }
    }
    -1
}
