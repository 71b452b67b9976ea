//! The static table (RFC 9204, section 3.1 and Appendix A), and where its names and fields are looked
//! up.

ghost use Rattle.std.specs.Prelude.{◌≡◌, ◌+◌, ◌<◌, Decides, Some, option_map, slice_get, slice_index};
ghost use Rattle.wtp_qpack.specs.Field.{fields_of_texts, field_of_texts};
ghost use Rattle.wtp_qpack.specs.StaticTable.{static_table, entry_at, first_entry, IsNamed, FindsStatic};
ghost use Rattle.wtp_qpack.specs.StaticSlots.{byte_at, name_slot, value_slot, field_slot};

/// Names and values, by index.
pub static ENTRIES: [(&str, &str); 99] = [
    (":authority", ""),
    (":path", "/"),
    ("age", "0"),
    ("content-disposition", ""),
    ("content-length", "0"),
    ("cookie", ""),
    ("date", ""),
    ("etag", ""),
    ("if-modified-since", ""),
    ("if-none-match", ""),
    ("last-modified", ""),
    ("link", ""),
    ("location", ""),
    ("referer", ""),
    ("set-cookie", ""),
    (":method", "CONNECT"),
    (":method", "DELETE"),
    (":method", "GET"),
    (":method", "HEAD"),
    (":method", "OPTIONS"),
    (":method", "POST"),
    (":method", "PUT"),
    (":scheme", "http"),
    (":scheme", "https"),
    (":status", "103"),
    (":status", "200"),
    (":status", "304"),
    (":status", "404"),
    (":status", "503"),
    ("accept", "*/*"),
    ("accept", "application/dns-message"),
    ("accept-encoding", "gzip, deflate, br"),
    ("accept-ranges", "bytes"),
    ("access-control-allow-headers", "cache-control"),
    ("access-control-allow-headers", "content-type"),
    ("access-control-allow-origin", "*"),
    ("cache-control", "max-age=0"),
    ("cache-control", "max-age=2592000"),
    ("cache-control", "max-age=604800"),
    ("cache-control", "no-cache"),
    ("cache-control", "no-store"),
    ("cache-control", "public, max-age=31536000"),
    ("content-encoding", "br"),
    ("content-encoding", "gzip"),
    ("content-type", "application/dns-message"),
    ("content-type", "application/javascript"),
    ("content-type", "application/json"),
    ("content-type", "application/x-www-form-urlencoded"),
    ("content-type", "image/gif"),
    ("content-type", "image/jpeg"),
    ("content-type", "image/png"),
    ("content-type", "text/css"),
    ("content-type", "text/html; charset=utf-8"),
    ("content-type", "text/plain"),
    ("content-type", "text/plain;charset=utf-8"),
    ("range", "bytes=0-"),
    ("strict-transport-security", "max-age=31536000"),
    (
        "strict-transport-security",
        "max-age=31536000; includesubdomains",
    ),
    (
        "strict-transport-security",
        "max-age=31536000; includesubdomains; preload",
    ),
    ("vary", "accept-encoding"),
    ("vary", "origin"),
    ("x-content-type-options", "nosniff"),
    ("x-xss-protection", "1; mode=block"),
    (":status", "100"),
    (":status", "204"),
    (":status", "206"),
    (":status", "302"),
    (":status", "400"),
    (":status", "403"),
    (":status", "421"),
    (":status", "425"),
    (":status", "500"),
    ("accept-language", ""),
    ("access-control-allow-credentials", "FALSE"),
    ("access-control-allow-credentials", "TRUE"),
    ("access-control-allow-headers", "*"),
    ("access-control-allow-methods", "get"),
    ("access-control-allow-methods", "get, post, options"),
    ("access-control-allow-methods", "options"),
    ("access-control-expose-headers", "content-length"),
    ("access-control-request-headers", "content-type"),
    ("access-control-request-method", "get"),
    ("access-control-request-method", "post"),
    ("alt-svc", "clear"),
    ("authorization", ""),
    (
        "content-security-policy",
        "script-src 'none'; object-src 'none'; base-uri 'none'",
    ),
    ("early-data", "1"),
    ("expect-ct", ""),
    ("forwarded", ""),
    ("if-range", ""),
    ("origin", ""),
    ("purpose", "prefetch"),
    ("server", ""),
    ("timing-allow-origin", "*"),
    ("upgrade-insecure-requests", "1"),
    ("user-agent", ""),
    ("x-forwarded-for", ""),
    ("x-frame-options", "deny"),
    ("x-frame-options", "sameorigin"),
];

/// For each slot, the index of the first entry of the one name that may have it, or 99.
static NAME_SLOTS: [u8; 256] = [
    99, 99, 99, 99, 99, 99, 99, 99, 99, 29, 99, 99, 99, 99, 7, 99, 99, 99, 99, 99, 5, 93, 99, 83,
    6, 99, 99, 99, 99, 99, 97, 96, 99, 99, 99, 99, 99, 99, 99, 62, 99, 99, 99, 99, 99, 99, 99, 99,
    99, 99, 99, 99, 99, 99, 32, 99, 87, 99, 99, 99, 99, 99, 99, 99, 84, 99, 99, 88, 99, 99, 99, 56,
    72, 99, 99, 44, 99, 99, 99, 31, 99, 86, 36, 99, 99, 99, 61, 99, 89, 94, 11, 99, 99, 99, 99, 4,
    99, 99, 99, 99, 99, 99, 99, 99, 99, 42, 99, 99, 99, 99, 99, 99, 99, 99, 99, 99, 99, 99, 99, 99,
    99, 99, 99, 12, 9, 99, 99, 99, 90, 99, 3, 99, 99, 99, 99, 99, 99, 99, 99, 99, 99, 99, 99, 99,
    99, 55, 99, 99, 99, 99, 85, 99, 99, 10, 99, 91, 8, 99, 99, 13, 92, 99, 99, 99, 99, 99, 1, 99,
    99, 99, 35, 99, 99, 76, 99, 22, 99, 15, 99, 99, 99, 99, 99, 24, 59, 99, 99, 33, 99, 99, 99, 99,
    81, 99, 99, 79, 14, 99, 99, 99, 99, 99, 99, 80, 99, 99, 0, 99, 99, 99, 99, 99, 99, 73, 99, 99,
    99, 99, 99, 95, 99, 99, 99, 99, 99, 99, 99, 99, 99, 99, 99, 99, 2, 99, 99, 99, 99, 99, 99, 99,
    99, 99, 99, 99, 99, 99, 99, 99, 99, 99, 99, 99, 99, 99, 99, 99,
];

/// For the first entry of each name, the slot from which on its values have theirs.
static STARTS: [u8; 99] = [
    1, 3, 0, 7, 1, 9, 10, 13, 14, 45, 51, 59, 65, 70, 72, 20, 0, 0, 0, 0, 0, 0, 7, 0, 0, 0, 0, 0,
    0, 6, 0, 60, 50, 21, 0, 74, 54, 0, 0, 0, 0, 0, 1, 0, 27, 0, 0, 0, 0, 0, 0, 0, 0, 0, 0, 68, 24,
    0, 0, 28, 0, 78, 80, 0, 0, 0, 0, 0, 0, 0, 0, 0, 82, 46, 0, 0, 50, 0, 0, 69, 67, 42, 0, 69, 86,
    84, 59, 89, 90, 91, 92, 87, 94, 93, 67, 97, 98, 40, 0,
];

/// For each slot, the index of the one entry that may have it, or 99.
static FIELD_SLOTS: [u8; 256] = [
    64, 0, 26, 69, 27, 43, 1, 3, 29, 5, 6, 42, 66, 7, 8, 70, 2, 4, 63, 24, 25, 16, 65, 75, 67, 68,
    71, 28, 49, 46, 17, 22, 23, 30, 15, 33, 60, 57, 34, 54, 50, 19, 18, 45, 58, 9, 20, 53, 21, 47,
    56, 10, 81, 59, 44, 52, 51, 48, 36, 11, 76, 73, 41, 77, 38, 12, 98, 39, 82, 97, 13, 78, 14, 74,
    31, 32, 35, 55, 61, 40, 37, 62, 72, 79, 80, 83, 84, 85, 86, 87, 88, 89, 90, 91, 92, 93, 94, 95,
    96, 99, 99, 99, 99, 99, 99, 99, 99, 99, 99, 99, 99, 99, 99, 99, 99, 99, 99, 99, 99, 99, 99, 99,
    99, 99, 99, 99, 99, 99, 99, 99, 99, 99, 99, 99, 99, 99, 99, 99, 99, 99, 99, 99, 99, 99, 99, 99,
    99, 99, 99, 99, 99, 99, 99, 99, 99, 99, 99, 99, 99, 99, 99, 99, 99, 99, 99, 99, 99, 99, 99, 99,
    99, 99, 99, 99, 99, 99, 99, 99, 99, 99, 99, 99, 99, 99, 99, 99, 99, 99, 99, 99, 99, 99, 99, 99,
    99, 99, 99, 99, 99, 99, 99, 99, 99, 99, 99, 99, 99, 99, 99, 99, 99, 99, 99, 99, 99, 99, 99, 99,
    99, 99, 99, 99, 99, 99, 99, 99, 99, 99, 99, 99, 99, 99, 99, 99, 99, 99, 99, 99, 99, 99, 99, 99,
    99, 99, 99, 99, 99, 99, 99, 99, 99, 99, 99, 99, 99, 99,
];

/// Returns the whole table.
#[tactic(auto, unfolding(crate::specs::StaticTable::static_table))]
fn table() -> &'static [(&'static str, &'static str)]
    ensures { fields_of_texts result.now ≡ static_table }
{
    &ENTRIES
}

/// Returns the entry of an index in a table.
fn entry_in<'a>(table: &[(&'a str, &'a str)], index: u64) -> Option<(&'a str, &'a str)>
    ensures { option_map field_of_texts result ≡ slice_get (fields_of_texts table.now) index }
{
    table.get(index as usize).copied()
}

/// Returns the entry of an index.
pub fn entry(index: u64) -> Option<(&'static str, &'static str)>
    ensures { option_map field_of_texts result ≡ entry_at index }
{
    entry_in(table(), index)
}

/// Returns the byte at a place of a text, or 0 past its end.
#[inline(always)]
fn byte_at(text: &[u8], at: usize) -> usize
    ensures value { result ≡ byte_at text.now at }
    ensures few { result < 256 }
{
    match text.get(at) {
        Some(byte) => *byte as usize,
        None => 0,
    }
}

/// Returns the slot of a name.
#[inline(always)]
#[tactic(auto, unfolding(crate::specs::StaticSlots::name_slot))]
fn name_slot(name: &[u8]) -> usize
    ensures value { result ≡ name_slot name.now }
    ensures within { result < 256 }
{
    let last_but_one = byte_at(name, name.len().saturating_sub(2));
    (name.len() % 32 * 8 + byte_at(name, 0) * 9 + last_but_one) % 256
}

/// Returns how many slots after the first of its name a value has its slot.
#[inline(always)]
#[tactic(auto, unfolding(crate::specs::StaticSlots::value_slot))]
fn value_slot(value: &[u8]) -> usize
    ensures value { result ≡ value_slot value.now }
    ensures within { result < 32 }
{
    let last = byte_at(value, value.len().saturating_sub(1));
    let third_last = byte_at(value, value.len().saturating_sub(3));
    (byte_at(value, 6) * 2 + last * 11 + third_last * 2) % 32
}

/// Returns the index that a slot of names has.
#[inline(always)]
fn named_at(slot: usize) -> usize
    requires { slot < 256 }
    ensures { result ≡ slice_index NAME_SLOTS slot }
{
    NAME_SLOTS[slot] as usize
}

/// Returns the index that the slot of a field has, by the first entry of its name.
#[inline(always)]
#[tactic(auto, unfolding(crate::specs::StaticSlots::field_slot))]
fn field_at(first: u64, value: &[u8]) -> u64
    requires { first < 99 }
    ensures { result ≡ slice_index FIELD_SLOTS (field_slot first value.now) }
{
    let slot = (STARTS[first as usize] as usize + value_slot(value)) % 256;
    FIELD_SLOTS[slot] as u64
}

/// Returns whether the entry of an index has this name.
#[tactic(auto, using(crate::proofs::StaticLemmas::decisions))]
fn has_name(index: u64, name: &[u8]) -> bool
    ensures { Decides result (IsNamed index name.now) }
{
    match entry(index) {
        Some((known, _)) => known.as_bytes() == name,
        None => false,
    }
}

/// Returns whether the entry of an index has this name and value.
#[tactic(auto, using(crate::proofs::StaticLemmas::decisions))]
fn is_entry(index: u64, name: &[u8], value: &[u8]) -> bool
    ensures { Decides result (entry_at index ≡ Some (name.now, value.now)) }
{
    match entry(index) {
        Some((known, text)) => text.as_bytes() == value && known.as_bytes() == name,
        None => false,
    }
}

/// Returns the index of the first entry of a name.
#[tactic(auto, using(crate::proofs::StaticLemmas::name_found, crate::proofs::StaticLemmas::name_absent))]
pub fn first_entry_of(name: &[u8]) -> Option<usize>
    ensures { result ≡ first_entry name.now }
{
    let index = named_at(name_slot(name));
    if has_name(index as u64, name) {
        Some(index)
    } else {
        None
    }
}

/// Returns the index of the entry that has this name and value, where the first entry with the name
/// is given; or `None` if there is none.
pub fn entry_of(first: u64, name: &[u8], value: &[u8]) -> Option<u64>
    requires { first_entry name.now ≡ Some first }
    ensures { FindsStatic (name.now, value.now) result }
{
    let index = field_at(first, value);
    if is_entry(index, name, value) {
        Some(index)
    } else {
        None
    }
}
