//! All 99 entries and all 52 names of the static table, by lines that refer to them.
use crate::same::assert_same;
use crate::sections::{FaultRow, assert_decoded, assert_encoded, assert_faults, join};
use std::alloc::Global;
use std::process::Abort;
use wtp_qpack::qpack::DecodingError;

/// The names and values of a table.
type Entries = &'static [(&'static str, &'static str)];

/// The static table as RFC 9204, Appendix A, prints it. It is written apart from that of the
/// library, which these tests compare with it.
static APPENDIX_A: [(&str, &str); 99] = [
    (":authority", ""),
    (":path", "/"),
    ("age", "0"),
    ("content-disposition", ""),
    ("content-length", "0"),
    ("cookie", ""),
    ("date", ""),
    ("etag", ""),
    ("if-modified-since", ""),
    ("if-none-match", ""),
    ("last-modified", ""),
    ("link", ""),
    ("location", ""),
    ("referer", ""),
    ("set-cookie", ""),
    (":method", "CONNECT"),
    (":method", "DELETE"),
    (":method", "GET"),
    (":method", "HEAD"),
    (":method", "OPTIONS"),
    (":method", "POST"),
    (":method", "PUT"),
    (":scheme", "http"),
    (":scheme", "https"),
    (":status", "103"),
    (":status", "200"),
    (":status", "304"),
    (":status", "404"),
    (":status", "503"),
    ("accept", "*/*"),
    ("accept", "application/dns-message"),
    ("accept-encoding", "gzip, deflate, br"),
    ("accept-ranges", "bytes"),
    ("access-control-allow-headers", "cache-control"),
    ("access-control-allow-headers", "content-type"),
    ("access-control-allow-origin", "*"),
    ("cache-control", "max-age=0"),
    ("cache-control", "max-age=2592000"),
    ("cache-control", "max-age=604800"),
    ("cache-control", "no-cache"),
    ("cache-control", "no-store"),
    ("cache-control", "public, max-age=31536000"),
    ("content-encoding", "br"),
    ("content-encoding", "gzip"),
    ("content-type", "application/dns-message"),
    ("content-type", "application/javascript"),
    ("content-type", "application/json"),
    ("content-type", "application/x-www-form-urlencoded"),
    ("content-type", "image/gif"),
    ("content-type", "image/jpeg"),
    ("content-type", "image/png"),
    ("content-type", "text/css"),
    ("content-type", "text/html; charset=utf-8"),
    ("content-type", "text/plain"),
    ("content-type", "text/plain;charset=utf-8"),
    ("range", "bytes=0-"),
    ("strict-transport-security", "max-age=31536000"),
    (
        "strict-transport-security",
        "max-age=31536000; includesubdomains",
    ),
    (
        "strict-transport-security",
        "max-age=31536000; includesubdomains; preload",
    ),
    ("vary", "accept-encoding"),
    ("vary", "origin"),
    ("x-content-type-options", "nosniff"),
    ("x-xss-protection", "1; mode=block"),
    (":status", "100"),
    (":status", "204"),
    (":status", "206"),
    (":status", "302"),
    (":status", "400"),
    (":status", "403"),
    (":status", "421"),
    (":status", "425"),
    (":status", "500"),
    ("accept-language", ""),
    ("access-control-allow-credentials", "FALSE"),
    ("access-control-allow-credentials", "TRUE"),
    ("access-control-allow-headers", "*"),
    ("access-control-allow-methods", "get"),
    ("access-control-allow-methods", "get, post, options"),
    ("access-control-allow-methods", "options"),
    ("access-control-expose-headers", "content-length"),
    ("access-control-request-headers", "content-type"),
    ("access-control-request-method", "get"),
    ("access-control-request-method", "post"),
    ("alt-svc", "clear"),
    ("authorization", ""),
    (
        "content-security-policy",
        "script-src 'none'; object-src 'none'; base-uri 'none'",
    ),
    ("early-data", "1"),
    ("expect-ct", ""),
    ("forwarded", ""),
    ("if-range", ""),
    ("origin", ""),
    ("purpose", "prefetch"),
    ("server", ""),
    ("timing-allow-origin", "*"),
    ("upgrade-insecure-requests", "1"),
    ("user-agent", ""),
    ("x-forwarded-for", ""),
    ("x-frame-options", "deny"),
    ("x-frame-options", "sameorigin"),
];

/// Returns the entries of the static table.
fn entries() -> Entries {
    &APPENDIX_A
}

/// The first byte of indexed lines, and the greatest integer in its low bits.
const WHOLE: (u8, u8) = (0xc0, 63);

/// The first byte of lines with a static name reference, and the greatest integer in its low
/// bits.
const NAMED: (u8, u8) = (0x50, 15);

/// The same of those that must never be indexed.
const NEVER_INDEXED: (u8, u8) = (0x70, 15);

/// The value `~`, which is in no entry.
const VALUE: &[u8] = b"\x01~";

/// Returns a section with one line that refers to an index, followed by this value. The index
/// takes one more byte if it does not fit in the low bits.
fn line_of(
    rt: &impl Abort,
    alloc: Global,
    (first, ones): (u8, u8),
    index: usize,
    value: &[u8],
) -> Vec<u8> {
    let max = usize::from(ones);
    let rest = index.wrapping_sub(max) % 128;
    if index < max {
        join(rt, alloc, [b"\x00\x00", &[first | index as u8], value])
    } else {
        join(rt, alloc, [b"\x00\x00", &[first | ones, rest as u8], value])
    }
}

/// Asserts that the line with this index and value decodes to this field.
fn assert_line(
    rt: &impl Abort,
    alloc: Global,
    (form, index, value): ((u8, u8), usize, &[u8]),
    field: (&str, &str),
) {
    let section = line_of(rt, alloc, form, index, value);
    assert_decoded(rt, alloc, section.as_slice(), &[field], index);
}

/// Asserts that an index refers to this entry, both as a whole and by name.
fn assert_entry(rt: &impl Abort, alloc: Global, index: usize, (name, value): (&str, &str)) {
    assert_line(rt, alloc, (WHOLE, index, b""), (name, value));
    assert_line(rt, alloc, (NAMED, index, VALUE), (name, "~"));
    assert_line(rt, alloc, (NEVER_INDEXED, index, VALUE), (name, "~"));
}

/// Asserts that a name is encoded with the index of its first entry.
fn assert_first_entry(rt: &impl Abort, alloc: Global, first: usize, name: &str) {
    let section = line_of(rt, alloc, NAMED, first, VALUE);
    assert_encoded(rt, alloc, &[(name, "~")], section.as_slice(), name);
}

/// Lines with an index after the last entry.
static NO_ENTRIES: [FaultRow; 2] = [
    (
        "index 99",
        b"\x00\x00\xff\x24",
        Some(DecodingError::IndexNotfound),
    ),
    (
        "the name of index 99",
        b"\x00\x00\x5f\x54",
        Some(DecodingError::IndexNotfound),
    ),
];

/// Asserts that each index refers to its entry.
fn assert_entries(rt: &impl Abort, alloc: Global, entries: Entries) {
    for (index, entry) in entries.iter().enumerate() {
        assert_entry(rt, alloc, index, *entry);
    }
}

#[test]
fn whole_table_past_refused_memory(rt: HostRuntime) {
    assert_entries(&rt, rt.alloc(), entries());
    assert_faults(&rt, rt.alloc(), &NO_ENTRIES);
}

/// Returns the index of the first entry with this name.
fn first_entry(entries: Entries, name: &str) -> Option<usize> {
    for (index, entry) in entries.iter().enumerate() {
        if entry.0 == name {
            return Some(index);
        }
    }
    None
}

/// Asserts that a name is encoded with the index of its first entry. Returns whether this entry
/// is the first.
fn assert_name(
    rt: &impl Abort,
    alloc: Global,
    entries: Entries,
    (index, name): (usize, &str),
) -> bool {
    let first = first_entry(entries, name).unwrap_or(index);
    assert_first_entry(rt, alloc, first, name);
    first == index
}

/// Asserts that the name of each entry is encoded with the index of its first entry. Returns the
/// number of distinct names.
fn assert_names(rt: &impl Abort, alloc: Global, entries: Entries) -> u8 {
    let mut names = 0u8;
    for (index, entry) in entries.iter().enumerate() {
        if assert_name(rt, alloc, entries, (index, entry.0)) {
            names = names.wrapping_add(1);
        }
    }
    names
}

#[test]
fn names_past_refused_memory(rt: HostRuntime) {
    let names = assert_names(&rt, rt.alloc(), entries());
    assert_same(&rt, names, 52, "names");
}

/// The case, a name that is in no entry, and the section of this name with the value `~`.
static UNKNOWN: [(&str, &str, &[u8]); 3] = [
    ("before all", "", b"\x00\x00\x20\x01~"),
    ("after all", "zz", b"\x00\x00\x22zz\x01~"),
    ("between two", "agf", b"\x00\x00\x23agf\x01~"),
];

#[test]
fn names_of_no_entry_past_refused_memory(rt: HostRuntime) {
    for (case, name, section) in &UNKNOWN {
        assert_encoded(&rt, rt.alloc(), &[(name, "~")], section, case);
    }
}
