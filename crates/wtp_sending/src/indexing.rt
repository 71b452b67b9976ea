//! How the fields of a message are indexed in the dynamic table (RFC 9204, sections 4.5.4 and 7.1.3).
ghost use Rattle.std.specs.Prelude.{◌≡◌};
ghost use Rattle.wtp_messages.specs.Names.{is_one_of};
ghost use Rattle.wtp_sending.specs.Indexing.{varying_names, indexing_of};

use wtp_dynamic_encoder::proposal::Indexing;
use wtp_qpack::sensitive::is_sensitive;

/// Returns whether a name is that of a field whose values seldom come again.
fn is_varying(name: &[u8]) -> bool
    ensures { result ≡ is_one_of varying_names name.now }
{
    name == b":path".as_slice()
        || name == b"age".as_slice()
        || name == b"content-length".as_slice()
        || name == b"etag".as_slice()
        || name == b"if-modified-since".as_slice()
        || name == b"if-none-match".as_slice()
        || name == b"location".as_slice()
}

/// Returns how a field of a message is indexed.
///
/// [Sensitive fields](is_sensitive) are never indexed: credentials (`authorization`,
/// `proxy-authorization`), `set-cookie`, and cookies of fewer than 20 bytes. Fields whose values seldom
/// come again (`:path`, `age`, `content-length`, `etag`, `if-modified-since`, `if-none-match`,
/// `location`) are not inserted. All others are inserted if the policy of the encoder says so.
pub fn indexing_of(name: &[u8], value: &[u8]) -> Indexing
    ensures { result ≡ indexing_of (name.now, value.now) }
{
    if is_sensitive(name, value) {
        Indexing::Never
    } else if is_varying(name) {
        Indexing::Without
    } else {
        Indexing::ByPolicy
    }
}
