//! What the pieces of a connection are read as.

ghost use Rattle.std.specs.Prelude.{◌≡◌};
ghost use Rattle.wt_inspect.specs.Connections.{answer_to, is_critical, recorded_of};

use wt_inspect_connection::list::{Sender, is_bidirectional};
use wt_inspect_connection::purpose::Purpose;
use wt_inspection::Recorded;

/// Returns the kind of recording that what an end sent on a stream is, or `None` if all its bytes are
/// an application's. `opens_session` says whether a session has the ID of the stream.
pub(super) fn recorded_of(
    id: u64,
    sender: Sender,
    purpose: Purpose,
    opens_session: bool,
) -> Option<Recorded>
    ensures { result ≡ recorded_of id sender purpose «opens_session» }
{
    if !is_bidirectional(id) {
        return Some(Recorded::Uni);
    }
    if sender.has_opened(id) {
        return Some(Recorded::Bi);
    }
    answer_to(purpose, opens_session)
}

/// Returns the kind of what the end that did not open a bidirectional stream sent on it.
fn answer_to(purpose: Purpose, opens_session: bool) -> Option<Recorded>
    ensures { result ≡ answer_to purpose «opens_session» }
{
    match purpose {
        Purpose::Request if opens_session => Some(Recorded::SessionResponse),
        Purpose::Request => Some(Recorded::Response),
        _ => None,
    }
}

/// Returns whether a stream is a control stream or one of QPACK, which last as long as the connection
/// (RFC 9114, section 6.2.1; RFC 9204, section 4.2).
pub(super) fn is_critical(purpose: Purpose) -> bool
    ensures { result ≡ is_critical purpose }
{
    match purpose {
        Purpose::Control | Purpose::Encoder | Purpose::Decoder => true,
        _ => false,
    }
}
