//! Lists, by rows.
use crate::same::assert_same;
use std::alloc::Global;
use std::process::Abort;
use wt_inspect_connection::list::{Channel, LineError, ListError, Sender, read_list};

/// A text, how many entries it has, or why it is no list.
static COUNTS: [(&str, Result<usize, ListError<'static>>); 14] = [
    ("", Err(ListError::Empty)),
    ("\n\n", Err(ListError::Empty)),
    ("\r\n\r", Err(ListError::Empty)),
    ("0 client a\r\n\r\n4 server b\r", Ok(2)),
    ("0 client a", Ok(1)),
    ("0 client a\n", Ok(1)),
    ("0 client a\tb ", Ok(1)),
    ("\n0 client a\n\n4 server b b\n", Ok(2)),
    ("datagrams client a\ndatagrams client a\n", Ok(2)),
    ("4611686018427387903 server a", Ok(1)),
    ("2 server a", Err(ListError::NotSent(1))),
    ("\n3 client a", Err(ListError::NotSent(2))),
    (
        "0 client a\n0 server a\n0 client b",
        Err(ListError::Twice(3, 1)),
    ),
    ("\n0 client a\n\n00 client b", Err(ListError::Twice(4, 2))),
];

/// A text, the number of its line that is no entry, and why that is none.
static WRONG: [(&str, usize, LineError<'static>); 24] = [
    (
        "4611686018427387904 server a",
        1,
        LineError::LargeId("4611686018427387904"),
    ),
    (
        "18446744073709551616 server a",
        1,
        LineError::LargeId("18446744073709551616"),
    ),
    ("x", 1, LineError::Stream("x")),
    ("+0 client a", 1, LineError::Stream("+0")),
    ("-0 client a", 1, LineError::Stream("-0")),
    ("0x4 client a", 1, LineError::Stream("0x4")),
    ("datagram client a", 1, LineError::Stream("datagram")),
    (
        "0 client a\nDatagrams client a",
        2,
        LineError::Stream("Datagrams"),
    ),
    ("0", 1, LineError::NoDirection),
    ("\n0 \n", 2, LineError::NoDirection),
    ("0 Client a", 1, LineError::Direction("Client")),
    (
        "0 client a\r\n4 both b\r\n",
        2,
        LineError::Direction("both"),
    ),
    ("datagrams a", 1, LineError::Direction("a")),
    ("0 client", 1, LineError::NoFile),
    ("0 client ", 1, LineError::NoFile),
    ("0 client \r\n", 1, LineError::NoFile),
    ("0 client a\n4 server", 2, LineError::NoFile),
    (" 0 client a", 1, LineError::Gap),
    ("0  client a", 1, LineError::Gap),
    ("0 client  a", 1, LineError::Gap),
    ("0\tclient\ta", 1, LineError::Gap),
    ("0\tclient a", 1, LineError::Gap),
    ("0 client\ta", 1, LineError::Gap),
    ("0 client \ta", 1, LineError::Gap),
];

/// Checks the number of entries, or the error. Without memory another call is made.
fn check_count(
    rt: &impl Abort,
    alloc: Global,
    text: &'static str,
    wanted: Result<usize, ListError<'static>>,
) {
    let came = match read_list(alloc, text) {
        Err(ListError::Memory) => read_list(alloc, text),
        came => came,
    };
    match (came, wanted) {
        (Ok(entries), Ok(count)) => assert_same(rt, entries.len(), count, text),
        (Ok(_), Err(_)) => assert_same(rt, "a list", "an error", text),
        (Err(_), Ok(_)) => assert_same(rt, "an error", "a list", text),
        (Err(error), Err(other)) => assert_same(rt, error, other, text),
    }
}

#[test]
fn lists_have_their_entries(rt: HostRuntime) {
    for (text, wanted) in &COUNTS {
        check_count(&rt, rt.alloc(), text, *wanted);
    }
    for (text, line, wrong) in &WRONG {
        check_count(&rt, rt.alloc(), text, Err(ListError::Line(*line, *wrong)));
    }
}

#[test]
fn an_entry_has_what_its_line_says(rt: HostRuntime) {
    let text = "datagrams server a b \n\n7 server x";
    let alloc = rt.alloc();
    let came = match read_list(alloc, text) {
        Err(ListError::Memory) => read_list(alloc, text),
        came => came,
    };
    match came {
        Ok(entries) => match entries.as_slice() {
            [first, second] => {
                assert_same(&rt, first.channel, Channel::Datagram, "channel");
                assert_same(&rt, first.sender, Sender::Server, "sender");
                assert_same(&rt, first.file, "a b ", "file");
                assert_same(&rt, second.channel, Channel::Stream(7), "channel");
                assert_same(&rt, second.line, 3, "line");
            }
            _ => assert_same(&rt, entries.len(), 2, "entries"),
        },
        Err(error) => assert_same(&rt, error, ListError::Empty, text),
    }
}
