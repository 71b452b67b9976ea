//! The fields of subprotocols, by rows. Strings and lists are those of RFC 9651, sections 3.1 and 3.3.3,
//! and of the tests of the HTTP working group for structured fields (`string`, `list`, `date` and
//! `display-string`).
use std::alloc::Global;
use std::process::Abort;
use wtp_core::error::ErrorScope;
use wtp_fields::fields::FieldList;
use wtp_subprotocols::subprotocols::{
    NotOffered, WriteError, available_protocols, check_protocol, protocol,
    write_available_protocols, write_protocol,
};

/// Returns a list with these lines of a field, or `None` if allocation fails.
fn list_once(alloc: Global, name: &[u8], lines: &[&[u8]]) -> Option<FieldList> {
    let mut list = FieldList::decode(alloc, b"\x00\x00", 0).ok()?;
    for line in lines {
        list.push(b"other", b"\"x\"").ok()?;
        list.push(name, line).ok()?;
    }
    Some(list)
}

/// Returns a list with these lines of a field, made again if allocation failed.
fn list_of(rt: &impl Abort, alloc: Global, name: &[u8], lines: &[&[u8]]) -> FieldList {
    match list_once(alloc, name, lines) {
        Some(list) => list,
        None => list_once(alloc, name, lines).expect(rt, "memory"),
    }
}

/// Returns whether these are the same texts.
fn are_same(found: &[Vec<u8>], wanted: &[&[u8]]) -> bool {
    if found.len() != wanted.len() {
        return false;
    }
    for (value, other) in found.iter().zip(wanted) {
        if value.as_slice() != *other {
            return false;
        }
    }
    true
}

/// Lines of `wt-available-protocols`, and the strings of the list.
static LISTS: [(&[&[u8]], Option<&[&[u8]]>); 26] = [
    (&[], None),
    (&[b""], Some(&[])),
    (
        &[b"\"foo\", \"bar\", \"It was the best of times.\""],
        Some(&[b"foo", b"bar", b"It was the best of times."]),
    ),
    (&[b"\"a\"", b"\"b\""], Some(&[b"a", b"b"])),
    (&[b"\"a\",\"b\""], Some(&[b"a", b"b"])),
    (&[b"\"a\" ,  \"b\""], Some(&[b"a", b"b"])),
    (&[b"\"a\"\t,\t\"b\""], Some(&[b"a", b"b"])),
    (&[b"\"a\"", b"\"a\""], Some(&[b"a", b"a"])),
    (
        &[b"\"foo \\\"bar\\\" \\\\ baz\""],
        Some(&[b"foo \"bar\" \\ baz"]),
    ),
    (&[b"\"a,b\", \"\""], Some(&[b"a,b", b""])),
    (
        &[b"\"abc\";a=1;b=2; c, \"ghi\";jk=4;l=\"9,\\\"\";q=:aGk=:,\"m\"; *n=?0;o=*t/u;p=-1.5"],
        Some(&[b"abc", b"ghi", b"m"]),
    ),
    (&[b"\"a\" ;b"], None),
    (&[b"\"a\";"], None),
    (&[b"\"a\";b=, \"c\""], None),
    (&[b"\"a\", b"], None),
    (&[b"\"a\", 1"], None),
    (&[b"(\"a\" \"b\")"], None),
    (&[b"\"a\","], None),
    (&[b",\"a\""], None),
    (&[b"\"a\",,\"b\""], None),
    (&[b"\"a\" \"b\""], None),
    (&[b"\"a\"", b""], None),
    (&[b"", b"\"a\""], None),
    (&[b"\"a\"", b"b"], None),
    (&[b"\"f\xc3\xbc\xc3\xbc\""], None),
    (&[b"\"a"], None),
];

#[test]
fn offers_are_read_past_refused_memory(rt: HostRuntime) {
    for row in &LISTS {
        let list = list_of(&rt, rt.alloc(), b"wt-available-protocols", row.0);
        let found = match available_protocols(rt.alloc(), &list) {
            Ok(found) => found,
            Err(_) => available_protocols(rt.alloc(), &list).expect(&rt, "memory"),
        };
        match (&found, row.1) {
            (Some(found), Some(wanted)) => {
                assert!(rt; are_same(found, wanted), "the list of {:?}", row.0);
            }
            (found, wanted) => {
                assert!(rt;
                    found.is_none() && wanted.is_none(),
                    "whether {:?} is a list",
                    row.0
                );
            }
        }
    }
}

/// Lines of `wt-protocol`, and the string.
static ITEMS: [(&[&[u8]], Option<&[u8]>); 28] = [
    (&[], None),
    (&[b"\"hello world\""], Some(b"hello world")),
    (&[b"\"\""], Some(b"")),
    (&[b"\"   \""], Some(b"   ")),
    (
        &[b"\"foo \\\"bar\\\" \\\\ baz\""],
        Some(b"foo \"bar\" \\ baz"),
    ),
    (&[b"\"a\"; foo=bar ; q"], None),
    (&[b"\"a\"; foo=bar;baz=\"x\""], Some(b"a")),
    (&[b"\"a\";B=1"], None),
    (&[b"\"a\";d=@1659578233"], Some(b"a")),
    (
        &[b"\"a\";d=@-1659578233;s=%\"f%c3%bc%c3%bc\";q"],
        Some(b"a"),
    ),
    (&[b"\"a\";s=%\"foo \\ ;,bar\""], Some(b"a")),
    (&[b"\"a\";s=%'foo'"], None),
    (&[b"\"a\";s=%foo"], None),
    (&[b"\"a\";s=%\"foo"], None),
    (&[b"\"a\";s=%\"f\xc3\xbc\""], None),
    (&[b""], None),
    (&[b"'foo'"], None),
    (&[b"foo"], None),
    (&[b"\"foo"], None),
    (&[b"foo\""], None),
    (&[b"\"\t\""], None),
    (&[b"\"foo \\,\""], None),
    (&[b"\"foo \\\""], None),
    (&[b"\"foo \\"], None),
    (&[b"\"f\xc3\xbc\xc3\xbc\""], None),
    (&[b"\"a\", \"b\""], None),
    (&[b"\"a\" b"], None),
    (&[b"\"a\"", b"\"a\""], None),
];

#[test]
fn choices_are_read_past_refused_memory(rt: HostRuntime) {
    for row in &ITEMS {
        let list = list_of(&rt, rt.alloc(), b"wt-protocol", row.0);
        let found = match protocol(rt.alloc(), &list) {
            Ok(found) => found,
            Err(_) => protocol(rt.alloc(), &list).expect(&rt, "memory"),
        };
        let came = match &found {
            Some(text) => Some(text.as_slice()),
            None => None,
        };
        assert!(rt; came == row.1, "the string of {:?}", row.0);
    }
}

#[test]
fn choices_are_checked(rt: HostRuntime) {
    let offered: [&[u8]; 2] = [b"moqt", b"chat"];
    assert!(rt; check_protocol(None, &offered).is_ok(), "no choice");
    assert!(rt;
        check_protocol(Some(b"moqt"), &offered).is_ok(),
        "the first"
    );
    assert!(rt;
        check_protocol(Some(b"chat"), &offered).is_ok(),
        "the second"
    );
    assert!(rt;
        check_protocol(None, &[]).is_ok(),
        "neither an offer nor a choice"
    );
    let others: [&[u8]; 4] = [b"", b"cha", b"chats", b"Chat"];
    for other in &others {
        assert!(rt;
            check_protocol(Some(other), &offered) == Err(NotOffered),
            "{:?}",
            *other
        );
    }
    assert!(rt;
        check_protocol(Some(b"moqt"), &[]) == Err(NotOffered),
        "a choice without an offer"
    );
    assert!(rt;
        NotOffered.code().number().into_inner() == 0x0817b3dd,
        "the code"
    );
    assert!(rt; NotOffered.scope() == ErrorScope::Stream, "the scope");
}

/// Strings, and the list of them (RFC 9651, sections 4.1.1 and 4.1.6).
static WRITTEN: [(&[&[u8]], Result<&[u8], WriteError>); 8] = [
    (&[], Ok(b"")),
    (&[b"foo"], Ok(b"\"foo\"")),
    (&[b"foo", b"bar", b""], Ok(b"\"foo\", \"bar\", \"\"")),
    (&[b"a\"b\\"], Ok(b"\"a\\\"b\\\\\"")),
    (&[b" ~"], Ok(b"\" ~\"")),
    (&[b"a", b"\x7f"], Err(WriteError::InvalidByte)),
    (&[b"a\tb"], Err(WriteError::InvalidByte)),
    (&[b"\xc3\xbc", b"a"], Err(WriteError::InvalidByte)),
];

#[test]
fn fields_are_written_past_refused_memory(rt: HostRuntime) {
    for row in &WRITTEN {
        let written = match write_available_protocols(rt.alloc(), row.0) {
            Err(WriteError::Memory) => write_available_protocols(rt.alloc(), row.0),
            written => written,
        };
        let came = match &written {
            Ok(text) => Ok(text.as_slice()),
            Err(fault) => Err(*fault),
        };
        assert!(rt; came == row.1, "the list of {:?}", row.0);
        let [value] = row.0 else {
            continue;
        };
        let written = match write_protocol(rt.alloc(), value) {
            Err(WriteError::Memory) => write_protocol(rt.alloc(), value),
            written => written,
        };
        let came = match &written {
            Ok(text) => Ok(text.as_slice()),
            Err(fault) => Err(*fault),
        };
        assert!(rt; came == row.1, "the string of {:?}", row.0);
    }
}
