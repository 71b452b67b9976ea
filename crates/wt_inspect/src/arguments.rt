//! Parses the arguments.
ghost use Rattle.std.specs.Prelude.{◌≡◌, ◌<◌, ◌^◌, ℕ, Bool, None, Some, codes, option_map};
ghost use Rattle.clap.specs.Matches.{first_value, found_of, one_text};
ghost use Rattle.wt_inspect.specs.CommandLine.{IsFlag, Names, has_colors, names_connection, output_of};

use clap::{Arg, ArgAction, ArgMatches, Command, Error, value_parser};
use std::alloc::Global;
use wt_inspection::Recorded;

/// One more than the largest capacity that may be given.
const MAX_CAPACITY: u64 = 1 << 60;

/// The capacity if none is given, which is what most stacks announce at most.
const DEFAULT_CAPACITY: u64 = 4096;

/// The version that the program names.
const VERSION: &str = "0.8.0";

/// What the program does, and the common uses.
const ABOUT: &str = "\
Shows what a recorded stream or datagram of HTTP/3 or WebTransport contains

Examples:
  wt_inspect connection DIR          a connection: its streams, sessions, errors
  wt_inspect connection --html DIR   the same as one page for a browser
  wt_inspect bi --open request.bin   one stream, which may go on
DIR is a folder with the recorded files and a file 'list' of them (below). Why a
session closed is in the last two parts, '== sessions' and '== verdicts'.";

/// The text of the help after the list of arguments.
const MORE: &str = "\
KIND says what FILE has, from its first byte on, in one direction of a stream:
  bi                a bidirectional stream, by the end that opened it
  response          the other direction of a request
  session-response  that of a request for a session, with its capsules
  uni               a unidirectional stream: control, QPACK, WebTransport, push
  datagram          the payload of one QUIC datagram
  capsules          the content of the DATA frames of a session
  section           an encoded field section: the payload of a HEADERS frame
  settings          the payload of a SETTINGS frame
  connection        a list of such files, or a folder with one, named 'list'

A list has a line STREAM DIRECTION FILE for each direction of a stream, and for
each datagram, with one blank between them. A folder without a list needs one;
this writes a list of three lines:
  printf '%s\\n' '0 client request.bin' '0 server response.bin' \\
    'datagrams client datagram.bin' > DIR/list
STREAM is the ID of the stream, or the word datagrams. The client opens 0, 4, 8,
.. for both directions, and 2, 6, .. for its own; the server 1, 5, .. and 3, 7,
.. likewise. DIRECTION is the end that sent the bytes, client or server. FILE
has the bytes, from the first one on; its path is relative to the folder of the
list. The order of lines does not matter, but for the datagrams of an end; a
line may end with CR LF. With --open, all streams of the connection may go on;
without it, all have ended, but for the control streams and those of QPACK.

The text of a connection has a part '== ' for the control streams, for QPACK,
for each session with its streams and datagrams, and for each other request. In
it a line '-- ' begins each direction of a stream, and each datagram. Last come:
  == sessions  of each session its path, status, streams and datagrams, and its
               end: closed with code and reason, and by which end; refused;
               ended without a close; or open
  == verdicts  what each end would do on what the other sent, or 'no error'
A verdict such as 'the client would close the connection: H3_ID_ERROR, stream 3'
is what this library's client does on the server's bytes, and the rule that they
break. 'would reset', 'would refuse' and 'would wait' are of one stream alone;
'the server closed the session' says who closed it, with code and reason. After
an error of the connection, nothing more is judged for that end.

Each line of text begins with the mark '\u{258c} '; what a terminal wraps has none.
An item has its offset in bytes, what it is, and mostly its size, and below it
its field lines, settings or capsules. 'warning' is a rule that is broken, with
its error code; 'hint' says that another KIND may fit. The last line is 'end',
'cut' (within an item) or 'fault' (code and reason; the rest is 'not read'). A
'reserved' type is sent to be ignored; an 'unknown' one has no name here. In a
terminal, headings are bold, first lines of items cyan, warnings yellow, hints
blue, faults and broken rules red; not if NO_COLOR is set, or TERM is dumb.

With --json each line is an object. Its member 'item' says what it is: frame,
capsule, datagram, warning, end and others. Of a connection, 'on_stream' and
'from' are the ID of the stream and the end that sent it. The last objects have
'session' or 'verdict'; a verdict has 'by' (who judges), 'stream', 'why' and the
'code' of an error. INSPECTOR.md, which comes with the program, has all members.

Other examples:
  wt_inspect uni --open control.bin                 settings, and what is wrong
  wt_inspect session-response --open response.bin   whether the server closed
  wt_inspect bi --encoder encoder.bin request.bin   with QPACK's dynamic table
  echo 00 04 02 33 01 | wt_inspect uni --open --hex   bytes written as text
Field lines may refer to QPACK's dynamic table, which the encoder stream of the
same end fills, a unidirectional stream of type 2. Without it '(dynamic 5)' and
'(dynamic post-base 0)' stand for its entries, by their distance from the Base.

Exit status: 0 the bytes were shown, 1 wrong arguments, 2 the bytes have a fault
(with --strict, or a warning), 3 input or output failed, 4 out of memory.";

/// The names of the kinds of recordings.
static KINDS: [&str; 9] = [
    "bi",
    "response",
    "session-response",
    "uni",
    "datagram",
    "capsules",
    "section",
    "settings",
    "connection",
];

/// When text has colours.
static WHENS: [&str; 3] = ["auto", "always", "never"];

/// The format of the output.
#[derive(Clone, Copy)]
pub enum Output {
    /// Text for people.
    Text,
    /// JSON, one object per line.
    Json,
    /// An HTML page.
    Html,
}

/// The parsed arguments.
#[derive(Clone, Copy)]
pub struct Arguments<'a> {
    /// The kind of recording.
    pub recorded: Recorded,
    /// Whether the input is the list of a connection.
    pub is_connection: bool,
    /// The name of the kind.
    pub kind: &'a str,
    /// The format of the output.
    pub output: Output,
    /// Whether text has colours.
    pub has_colors: bool,
    /// Whether the input is hexadecimal text.
    pub is_hex: bool,
    /// Whether more bytes may follow.
    pub is_open: bool,
    /// Whether payload bytes are shown.
    pub has_payload: bool,
    /// Whether a warning counts as a fault.
    pub is_strict: bool,
    /// The file with the encoder stream, if there is one.
    pub encoder: Option<&'a str>,
    /// The largest capacity of the dynamic table, in bytes.
    pub capacity: u64,
    /// The file to read, or `None` for standard input.
    pub file: Option<&'a str>,
}

/// Returns an option that takes no value.
fn flag<'a>(alloc: Global, name: &'static str, help: &'static str) -> Arg<'a> {
    Arg::new(alloc, name)
        .long(name)
        .action(ArgAction::SetTrue)
        .help(help)
}

/// Returns the definition of the command line.
pub fn command<'a>(alloc: Global) -> Result<Command<'a>, Error> {
    let kind = Arg::new(alloc, "kind")
        .value_name("KIND")
        .required(true)
        .help("What was recorded")
        .value_parser(KINDS.as_slice());
    let file = Arg::new(alloc, "file").value_name("FILE").help(
        "The recording, up to 64 MiB; standard input if there is none, or -",
    );
    let command = Command::new(alloc, "wt_inspect")
        .version(VERSION)
        .about(ABOUT)
        .after_help(MORE)
        .arg(kind)?
        .arg(file)?;
    let command = add_flags(alloc, command)?;
    add_table(alloc, command)
}

/// Adds the options without a value, and that of the colours.
fn add_flags<'a>(alloc: Global, command: Command<'a>) -> Result<Command<'a>, Error> {
    let command = command
        .arg(flag(
            alloc,
            "hex",
            "Read hexadecimal text; blanks and 0x are ignored",
        ))?
        .arg(flag(alloc, "json", "Write JSON, one object a line"))?
        .arg(flag(
            alloc,
            "html",
            "Write one page of HTML, with the bytes of each item",
        )
        .conflicts_with("json")?)?
        .arg(flag(
            alloc,
            "open",
            "More bytes may follow, on all streams of a connection",
        ))?
        .arg(flag(
            alloc,
            "payload",
            "In text and JSON, show the bytes of payloads too",
        ))?
        .arg(flag(alloc, "strict", "The exit status is 2 for a warning too"))?
        .arg(color(alloc))?;
    Ok(command)
}

/// Returns the option that says when text has colours.
fn color<'a>(alloc: Global) -> Arg<'a> {
    Arg::new(alloc, "color")
        .long("color")
        .value_name("WHEN")
        .value_parser(WHENS.as_slice())
        .help("Colours in text")
}

/// Adds the options of the dynamic table.
fn add_table<'a>(alloc: Global, command: Command<'a>) -> Result<Command<'a>, Error> {
    let encoder = Arg::new(alloc, "encoder")
        .long("encoder")
        .value_name("FILE")
        .help("The whole QPACK encoder stream of the same sender");
    let capacity = Arg::new(alloc, "capacity")
        .long("capacity")
        .value_name("N")
        .value_parser(value_parser!(u64).range(..1 << 60))
        .help("Table size that the other end allowed [default: 4096]")
        .requires_arg("encoder")?;
    Ok(command.arg(encoder)?.arg(capacity)?)
}

/// Returns the parsed arguments. `is_for_people` says whether text has colours if they do not.
pub fn read_arguments<'a>(matches: &ArgMatches<'a>, is_for_people: bool) -> Arguments<'a>
    ensures recorded { Names (first_value (found_of matches.now) (codes "kind")) result.recorded }
    ensures connection { result.is_connection
        ≡ names_connection (first_value (found_of matches.now) (codes "kind")) }
    ensures output { (json : Bool) × (html : Bool)
        × IsFlag (found_of matches.now) (codes "json") json
        × IsFlag (found_of matches.now) (codes "html") html
        × (result.output ≡ output_of json html) }
    ensures colors { result.has_colors
        ≡ has_colors (first_value (found_of matches.now) (codes "color")) «is_for_people» }
    ensures is_hex { IsFlag (found_of matches.now) (codes "hex") result.is_hex }
    ensures is_open { IsFlag (found_of matches.now) (codes "open") result.is_open }
    ensures has_payload { IsFlag (found_of matches.now) (codes "payload") result.has_payload }
    ensures is_strict { IsFlag (found_of matches.now) (codes "strict") result.is_strict }
    ensures encoder { option_map (λ path. path.now) result.encoder
        ≡ first_value (found_of matches.now) (codes "encoder") }
    ensures capacity { result.capacity < 2 ^ 60 }
    ensures default { one_text (found_of matches.now) (codes "capacity") ≡ None
        → result.capacity ≡ 4096 }
    ensures file { option_map (λ path. path.now) result.file
        ≡ first_value (found_of matches.now) (codes "file") }
{
    Arguments {
        recorded: recorded_of(matches.get_str("kind")),
        is_connection: is_connection(matches.get_str("kind")),
        kind: matches.get_str("kind").unwrap_or(""),
        output: output_of(matches.get_flag("json"), matches.get_flag("html")),
        has_colors: has_colors(matches.get_str("color"), is_for_people),
        is_hex: matches.get_flag("hex"),
        is_open: matches.get_flag("open"),
        has_payload: matches.get_flag("payload"),
        is_strict: matches.get_flag("strict"),
        encoder: matches.get_str("encoder"),
        capacity: capacity_of(matches.get_one("capacity")),
        file: matches.get_str("file"),
    }
}

/// Returns the kind of recording with this name. The parser accepts only the names in `KINDS`.
fn recorded_of(name: Option<&str>) -> Recorded
    ensures { Names (option_map (λ text. text.now) name.entry) result }
{
    match name {
        Some("response") => Recorded::Response,
        Some("session-response") => Recorded::SessionResponse,
        Some("uni") => Recorded::Uni,
        Some("datagram") => Recorded::Datagram,
        Some("capsules") => Recorded::Capsules,
        Some("section") => Recorded::Section,
        Some("settings") => Recorded::Settings,
        _ => Recorded::Bi,
    }
}

/// Returns whether this is the name of a connection.
fn is_connection(name: Option<&str>) -> bool
    ensures { result ≡ names_connection (option_map (λ text. text.now) name.entry) }
{
    match name {
        Some("connection") => true,
        _ => false,
    }
}

/// Returns whether text has colours. The parser accepts only the values in `WHENS`.
fn has_colors(when: Option<&str>, is_for_people: bool) -> bool
    ensures { result ≡ has_colors (option_map (λ text. text.now) when.entry) «is_for_people» }
{
    match when {
        Some("always") => true,
        Some("never") => false,
        _ => is_for_people,
    }
}

/// Returns the largest capacity of the dynamic table. The parser accepts none above the largest.
pub fn capacity_of(given: Option<u64>) -> u64
    ensures below { result < 2 ^ 60 }
    ensures given { (n : ℕ) → given ≡ Some n → n < 2 ^ 60 → result ≡ n }
    ensures default { given ≡ None → result ≡ 4096 }
{
    match given {
        Some(capacity) => capacity.min(MAX_CAPACITY - 1),
        None => DEFAULT_CAPACITY,
    }
}

/// Returns the format of the output.
fn output_of(json: bool, html: bool) -> Output
    ensures { result ≡ output_of json html }
{
    if json {
        Output::Json
    } else if html {
        Output::Html
    } else {
        Output::Text
    }
}
