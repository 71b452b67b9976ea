//! The display of inspections as text, JSON and pages: of each kind of recording, and after failed
//! allocations. The expected output follows from docs/INSPECTOR.md and the standards.
use crate::display::{Given, Shown, show_once, text_in};
use crate::same::assert_same;
use std::alloc::{AllocError, Global};
use std::process::Abort;
use wt_inspection::Recorded;

/// Displays bytes in each format, again if allocation failed.
fn show_again(alloc: Global, given: Given<'_>) -> Result<Shown, AllocError> {
    match show_once(alloc, given) {
        Ok(shown) => Ok(shown),
        Err(AllocError) => show_once(alloc, given),
    }
}

/// A recording, and how it is shown.
struct Row {
    case: &'static str,
    given: Given<'static>,
    /// The text without the mark of each line.
    text: &'static str,
    /// The JSON, a line for each item.
    lines: &'static str,
    /// A part of the page.
    part: &'static str,
}

static ROWS: [Row; 12] = [
    Row {
        case: "a response",
        given: Given {
            bytes: b"\x01\x03\x00\x00\xd9",
            kind: Recorded::Response,
            open: false,
            payload: false,
        },
        text: "0     response           HEADERS, 3 bytes
        :status = 200
5     end
",
        lines: "{\"at\":0,\"length\":5,\"item\":\"frame\",\"type\":\"HEADERS\",\"number\":1,\"payload\":3,\
            \"fields\":[[\":status\",\"200\"]]}
{\"at\":5,\"item\":\"end\",\"state\":\"whole\"}
",
        part: "<span tabindex=\"0\" data-item=\"0\">0       <i> 01 03</i> 00 00<span data-item=\"0.0\"> d9</span> ",
    },
    Row {
        case: "an open stream within a frame",
        given: Given {
            bytes: b"\x00\x05ab",
            kind: Recorded::Bi,
            open: true,
            payload: true,
        },
        text: "0     DATA               5 bytes, 2 of them present
        61 62
0     cut                frame, at least 3 bytes missing
",
        lines: "{\"at\":0,\"length\":4,\"item\":\"frame\",\"type\":\"DATA\",\"number\":0,\"payload\":5,\
            \"present\":2,\"hex\":\"6162\"}
{\"at\":0,\"item\":\"end\",\"state\":\"cut\",\"of\":\"frame\",\"missing\":3}
",
        part: "<pre><span>0     cut                frame, at least 3 bytes missing\n</span></pre></div>",
    },
    Row {
        case: "a unidirectional stream and its payload",
        given: Given {
            bytes: b"\x40\x54\x00hi",
            kind: Recorded::Uni,
            open: false,
            payload: true,
        },
        text: "0     stream             WebTransport, type 0x54, session 0
3     payload            2 bytes
        68 69
5     end
",
        lines: "{\"at\":0,\"length\":3,\"item\":\"stream\",\"type\":\"WebTransport\",\"number\":84,\"session\":0}
{\"at\":3,\"length\":2,\"item\":\"payload\",\"hex\":\"6869\"}
{\"at\":5,\"item\":\"end\",\"state\":\"whole\"}
",
        part: "data-item=\"1\">3        68 69                                            hi\n</span>",
    },
    Row {
        case: "a datagram of aioquic",
        given: Given {
            bytes: b"\x00\x65\x63\x68\x6f\x3a",
            kind: Recorded::Datagram,
            open: false,
            payload: true,
        },
        text: "0     datagram           session 0, quarter stream ID 0, 5 bytes
        65 63 68 6f 3a
6     end
",
        lines: "{\"at\":0,\"length\":6,\"item\":\"datagram\",\"quarter\":0,\"session\":0,\"payload\":5,\
            \"hex\":\"6563686f3a\"}
{\"at\":6,\"item\":\"end\",\"state\":\"whole\"}
",
        part: "datagram           session 0, quarter stream ID 0, 5 bytes\n</summary></details><b></b></div>",
    },
    Row {
        case: "a session is closed",
        given: Given {
            // recorded: chr07-0-c2s-0.bin, bytes 207 to 225
            bytes: b"\x68\x43\x0f\x00\x00\x12\x34bye, w\xc3\xb6rld",
            kind: Recorded::Capsules,
            open: false,
            payload: false,
        },
        text: "0     capsule            CLOSE_WEBTRANSPORT_SESSION, 15 bytes
            code = 4660
            reason = bye, w\u{f6}rld
18    end
",
        lines: "{\"at\":0,\"length\":18,\"item\":\"capsule\",\"type\":\"CLOSE_WEBTRANSPORT_SESSION\",\
            \"number\":10307,\"payload\":15,\"code\":4660,\"reason\":\"bye, w\u{f6}rld\"}
{\"at\":18,\"item\":\"end\",\"state\":\"whole\"}
",
        part: "            reason = bye, w\u{f6}rld\n",
    },
    Row {
        case: "capsules of flow control, and one that is empty where a limit was due",
        given: Given {
            bytes: b"\x99\x0b\x4d\x3d\x04\x80\x01\x00\x00\x99\x0b\x4d\x42\x03\x08\x40\x64\
                \x99\x0b\x4d\x3f\x00",
            kind: Recorded::Capsules,
            open: false,
            payload: false,
        },
        text: "0     capsule            WT_MAX_DATA, 4 bytes
            limit = 65536
9     capsule            WT_STREAM_DATA_BLOCKED, 3 bytes
            stream = 8
            limit = 100
17    capsule            WT_MAX_STREAMS_BIDI, 0 bytes
        warning: H3_MESSAGE_ERROR: the value of a capsule is not that of its type (RFC 9297, section 3.3)
22    end
",
        lines: "{\"at\":0,\"length\":9,\"item\":\"capsule\",\"type\":\"WT_MAX_DATA\",\
            \"number\":420171069,\"payload\":4,\"limit\":65536}
{\"at\":9,\"length\":8,\"item\":\"capsule\",\"type\":\"WT_STREAM_DATA_BLOCKED\",\
    \"number\":420171074,\"payload\":3,\"stream\":8,\"limit\":100}
{\"at\":17,\"length\":5,\"item\":\"capsule\",\"type\":\"WT_MAX_STREAMS_BIDI\",\
    \"number\":420171071,\"payload\":0}
{\"at\":17,\"item\":\"warning\",\"code\":270,\"name\":\"H3_MESSAGE_ERROR\",\"why\":\"the value \
    of a capsule is not that of its type (RFC 9297, section 3.3)\"}
{\"at\":22,\"item\":\"end\",\"state\":\"whole\"}
",
        part: "            stream = 8\n</span><span>            limit = 100\n</span>",
    },
    Row {
        case: "a setting of HTTP/2",
        given: Given {
            bytes: b"\x33\x01\x02\x00",
            kind: Recorded::Settings,
            open: false,
            payload: false,
        },
        text: "0     settings           4 bytes
        SETTINGS_H3_DATAGRAM (0x33) = 1
        HTTP/2 setting (0x2) = 0, which must not be sent (RFC 9114, section 7.2.4.1)
0     fault              H3_SETTINGS_ERROR (0x109): a setting must not be sent, or is repeated \
(RFC 9114, section 7.2.4)
",
        lines: "{\"at\":0,\"length\":4,\"item\":\"settings\",\"settings\":[{\"id\":51,\
            \"name\":\"SETTINGS_H3_DATAGRAM\",\"value\":1},{\"id\":2,\"name\":\"HTTP/2 setting\",\
            \"value\":0,\"fault\":\"http2\"}]}
{\"at\":0,\"item\":\"end\",\"state\":\"fault\",\"code\":265,\"name\":\"H3_SETTINGS_ERROR\",\"why\":\"a \
    setting must not be sent, or is repeated (RFC 9114, section 7.2.4)\"}
",
        part: "<pre class=\"fault\"><span>0     fault              H3_SETTINGS_ERROR (0x109): ",
    },
    Row {
        case: "a control stream",
        given: Given {
            bytes: b"\x00\x04\x00\x07\x01\x00",
            kind: Recorded::Uni,
            open: true,
            payload: false,
        },
        text: "0     stream             control, type 0x0
1     SETTINGS           0 bytes
3     GOAWAY             1 byte
        ID 0
6     end
",
        lines: "{\"at\":0,\"length\":1,\"item\":\"stream\",\"type\":\"control\",\"number\":0}
{\"at\":1,\"length\":2,\"item\":\"frame\",\"type\":\"SETTINGS\",\"number\":4,\"payload\":0,\
    \"settings\":[]}
{\"at\":3,\"length\":3,\"item\":\"frame\",\"type\":\"GOAWAY\",\"number\":7,\"payload\":1,\"id\":0}
{\"at\":6,\"item\":\"end\",\"state\":\"whole\"}
",
        part: "<div data-item=\"2\"><details open><summary>3     GOAWAY             1 byte\n</summary>\
            <span>        ID 0\n</span></details><b></b></div>",
    },
    Row {
        case: "the encoder streams of RFC 9204, appendix B, and an instruction that is cut",
        given: Given {
            bytes: b"\x02\x3f\xbd\x01\xc0\x0fwww.example.com\x4acustom-key\x0ccustom-value\x02\
                \x81\x0dcustom-value2\x3f",
            kind: Recorded::Uni,
            open: true,
            payload: false,
        },
        text: "0     stream             QPACK encoder, type 0x2
1     instruction        Set Dynamic Table Capacity 220, 3 bytes
4     instruction        Insert with Name Reference, static 0, 17 bytes
        :authority = www.example.com
21    instruction        Insert with Literal Name, 24 bytes
        custom-key = custom-value
45    instruction        Duplicate, 1 byte
        (dynamic 2)
46    instruction        Insert with Name Reference, 15 bytes
        (dynamic 1) = custom-value2
61    not read           1 byte
61    cut                instruction, at least 1 byte missing
",
        lines: "{\"at\":0,\"length\":1,\"item\":\"stream\",\"type\":\"QPACK encoder\",\"number\":2}
{\"at\":1,\"length\":3,\"item\":\"instruction\",\"type\":\"Set Dynamic Table Capacity\",\
    \"capacity\":220}
{\"at\":4,\"length\":17,\"item\":\"instruction\",\"type\":\"Insert with Name Reference\",\
    \"static\":0,\"field\":[\":authority\",\"www.example.com\"]}
{\"at\":21,\"length\":24,\"item\":\"instruction\",\"type\":\"Insert with Literal Name\",\
    \"field\":[\"custom-key\",\"custom-value\"]}
{\"at\":45,\"length\":1,\"item\":\"instruction\",\"type\":\"Duplicate\",\"field\":[{\"dynamic\":2}]}
{\"at\":46,\"length\":15,\"item\":\"instruction\",\"type\":\"Insert with Name Reference\",\
    \"field\":[{\"dynamic\":1},\"custom-value2\"]}
{\"at\":61,\"length\":1,\"item\":\"unread\"}
{\"at\":61,\"item\":\"end\",\"state\":\"cut\",\"of\":\"instruction\",\"missing\":1}
",
        part: "Insert with Literal Name, 24 bytes\n</summary><span>        custom-key = custom-value\n",
    },
    Row {
        case: "the decoder streams of RFC 9204, appendix B, and an increment of 0",
        given: Given {
            bytes: b"\x03\x84\x01\x48\x00",
            kind: Recorded::Uni,
            open: true,
            payload: false,
        },
        text: "0     stream             QPACK decoder, type 0x3
1     instruction        Section Acknowledgment, stream 4, 1 byte
2     instruction        Insert Count Increment 1, 1 byte
3     instruction        Stream Cancellation, stream 8, 1 byte
4     not read           1 byte
4     fault              QPACK_DECODER_STREAM_ERROR (0x202): an increment is 0 (RFC 9204, section 4.4.3)
",
        lines: "{\"at\":0,\"length\":1,\"item\":\"stream\",\"type\":\"QPACK decoder\",\"number\":3}
{\"at\":1,\"length\":1,\"item\":\"instruction\",\"type\":\"Section Acknowledgment\",\"stream\":4}
{\"at\":2,\"length\":1,\"item\":\"instruction\",\"type\":\"Insert Count Increment\",\"increment\":1}
{\"at\":3,\"length\":1,\"item\":\"instruction\",\"type\":\"Stream Cancellation\",\"stream\":8}
{\"at\":4,\"length\":1,\"item\":\"unread\"}
{\"at\":4,\"item\":\"end\",\"state\":\"fault\",\"code\":514,\"name\":\"QPACK_DECODER_STREAM_ERROR\",\
    \"why\":\"an increment is 0 (RFC 9204, section 4.4.3)\"}
",
        part: "<summary>1     instruction        Section Acknowledgment, stream 4, 1 byte\n</summary>",
    },
    Row {
        case: "a section that needs the dynamic table",
        given: Given {
            bytes: b"\x07\x00\xd7\x85",
            kind: Recorded::Section,
            open: false,
            payload: false,
        },
        text: "0     fields             4 bytes
        :scheme = https
        (dynamic 5)
        needs the dynamic table, encoded Required Insert Count 7
4     end
",
        lines: "{\"at\":0,\"length\":4,\"item\":\"section\",\"fields\":[[\":scheme\",\"https\"],\
    [{\"dynamic\":5}]],\"needs\":\"an encoder stream\",\"insert_count\":7}
{\"at\":4,\"item\":\"end\",\"state\":\"whole\"}
",
        part: "        (dynamic 5)\n</span>",
    },
    Row {
        case: "a value with a line feed, and not UTF-8",
        given: Given {
            bytes: b"\x00\x00\x21x\x04<\n\"\xff",
            kind: Recorded::Section,
            open: false,
            payload: false,
        },
        text: "0     fields             9 bytes
        x = <\\x0a\"\\xff
        warning: field 1: H3_MESSAGE_ERROR: a field value has a control character (RFC 9114, section 10.3)
9     end
",
        lines: "{\"at\":0,\"length\":9,\"item\":\"section\",\"fields\":[[\"x\",{\"hex\":\"3c0a22ff\"}]]}
{\"at\":0,\"item\":\"warning\",\"line\":1,\"code\":270,\"name\":\"H3_MESSAGE_ERROR\",\"why\":\"a field \
    value has a control character (RFC 9114, section 10.3)\"}
{\"at\":9,\"item\":\"end\",\"state\":\"whole\"}
",
        part: "        x = &lt;\\x0a&quot;\\xff\n",
    },
];

/// Returns whether a page contains these bytes.
fn has_part(page: &[u8], part: &[u8]) -> bool {
    page.windows(part.len().max(1)).any(|window| window == part)
}

/// Asserts that a text has these lines, each after the mark.
fn check_marked<R: Abort>(rt: &R, text: &str, wanted: &str, case: &str) {
    let mut lines = text.lines();
    for words in wanted.lines() {
        let line = lines.next().and_then(|line| line.strip_prefix("\u{258c} "));
        assert_same(rt, line, Some(words), case);
    }
    assert_same(rt, lines.next(), None, case);
}

/// Asserts the display of a row.
fn check_row<R: Abort>(rt: &R, alloc: Global, row: &Row) {
    let shown = show_again(alloc, row.given).expect(rt, "memory");
    check_marked(rt, shown.text.as_str(), row.text, row.case);
    assert_same(rt, text_in(shown.lines.as_slice()), row.lines, row.case);
    assert_same(
        rt,
        has_part(shown.page.as_slice(), row.part.as_bytes()),
        true,
        row.case,
    );
}

#[test]
fn each_kind_is_shown_past_refused_memory(rt: HostRuntime) {
    for row in &ROWS {
        check_row(&rt, rt.alloc(), row);
    }
}
