//! The list of what was recorded of a connection.
ghost use Rattle.std.specs.Char.{is_ascii_digit};
ghost use Rattle.std.specs.List.{list_all, list_any};
ghost use Rattle.std.specs.Prelude.{◌≡◌, ◌<◌, ◌^◌, ℕ, List, IfErr, IfOk, MatchBool, MatchOption, false, length};
ghost use Rattle.std.specs.Str.Parse.{IsNumeral};
ghost use Rattle.wt_inspect_connection.specs.Lists.{AddsLine, FailsAt, IsChannel, IsLineOf, IsList};
ghost use Rattle.wt_inspect_connection.specs.Lists.{IsNoChannel, IsNoEntry, IsNoSender, IsSender, IsWrong};
ghost use Rattle.wt_inspect_connection.specs.Lists.{IsWrongDirection, IsWrongFile, IsWrongStream, ListFails};
ghost use Rattle.wt_inspect_connection.specs.Lists.{begins_blank, first_line, first_word, is_bidirectional};
ghost use Rattle.wt_inspect_connection.specs.Lists.{is_same, is_same_sender, is_same_stream, is_tab, is_torn};
ghost use Rattle.wt_inspect_connection.specs.Lists.{line_of_same, may_send, more_lines, more_words, without_return};

use std::alloc::Global;

/// One more than the largest ID of a stream (RFC 9000, section 2.1).
const MAX_ID: u64 = 1 << 62;

/// The end that sent bytes.
#[derive(Clone, Copy, Debug, PartialEq, Eq, PartialOrd, Ord)]
pub enum Sender {
    /// The client.
    Client,
    /// The server.
    Server,
}

/// What bytes were sent on.
#[derive(Clone, Copy, Debug, PartialEq, Eq, PartialOrd, Ord)]
pub enum Channel {
    /// The stream with this ID (RFC 9000, section 2.1).
    Stream(u64),
    /// A datagram (RFC 9221).
    Datagram,
}

/// What one end sent on a stream, or in a datagram, and the file that has it.
#[derive(Clone, Copy)]
pub struct Entry<'a> {
    /// What it was sent on.
    pub channel: Channel,
    /// The end that sent it.
    pub sender: Sender,
    /// The name of the file.
    pub file: &'a str,
    /// The number of its line in the list, counted from 1.
    pub line: usize,
}

/// Why a line `STREAM DIRECTION FILE` is wrong, with the word that is. The message is without it, since
/// it may have any characters.
#[derive(Clone, Copy, Debug, PartialEq, Eq, thiserror::Error)]
pub enum LineError<'a> {
    /// Two fields have no blank, a tab or more than one blank between them, or a field is empty.
    #[error("a tab or more than one blank; STREAM DIRECTION FILE have one blank between them")]
    Gap,
    /// The first field is not the ID of a stream.
    #[error("STREAM is neither 'datagrams' nor the ID of a stream in decimal digits")]
    Stream(&'a str),
    /// The ID of the stream is above the largest one (RFC 9000, section 2.1).
    #[error("STREAM is above 4611686018427387903 (2^62 - 1)")]
    LargeId(&'a str),
    /// Nothing follows the first field.
    #[error("DIRECTION and FILE are missing; a line is such as '0 client request.bin'")]
    NoDirection,
    /// The second field is not the name of an end.
    #[error("DIRECTION is neither 'client' nor 'server', in lower-case letters")]
    Direction(&'a str),
    /// Nothing follows the second field.
    #[error("FILE is missing; a line is such as '0 client request.bin'")]
    NoFile,
}

/// Why a text is no list. Lines are counted from 1.
#[derive(Clone, Copy, Debug, PartialEq, Eq, thiserror::Error)]
pub enum ListError<'a> {
    /// This line is no entry, for this reason.
    #[error("line {0}: {1}")]
    Line(usize, LineError<'a>),
    /// On this line, an end sends on a unidirectional stream that the other end opened.
    #[error("line {0}: DIRECTION is wrong; only the end that opens a unidirectional stream sends on it (RFC 9000, section 2.1)")]
    NotSent(usize),
    /// This line has the direction of a stream that the second line, which is before it, has.
    #[error("line {0}: STREAM and DIRECTION are those of line {1}")]
    Twice(usize, usize),
    /// There is no entry.
    #[error("the list has no line, such as '0 client request.bin'")]
    Empty,
    /// Allocation failed.
    #[error("out of memory")]
    Memory,
}

impl<'a> LineError<'a> {
    ghost use Rattle.std.specs.Prelude.{option_map};
    ghost use Rattle.wt_inspect_connection.specs.Lists.{word_of};

    /// Returns the word that is wrong, if it is one.
    pub fn word(self) -> Option<&'a str>
        ensures { option_map (λ word. word.now) result ≡ word_of self.entry }
    {
        match self {
            LineError::Stream(word) | LineError::LargeId(word) | LineError::Direction(word) => {
                Some(word)
            }
            _ => None,
        }
    }
}

impl<'a> ListError<'a> {
    ghost use Rattle.std.specs.Prelude.{option_map};
    ghost use Rattle.wt_inspect_connection.specs.Lists.{word_in};

    /// Returns the word that is wrong, if it is one.
    pub fn word(self) -> Option<&'a str>
        ensures { option_map (λ word. word.now) result ≡ word_in self.entry }
    {
        match self {
            ListError::Line(_, wrong) => wrong.word(),
            _ => None,
        }
    }
}

/// Returns whether a stream is bidirectional: the second lowest bit of its ID is 0 (RFC 9000,
/// section 2.1).
pub fn is_bidirectional(id: u64) -> bool
    ensures { result ≡ is_bidirectional id }
{
    id / 2 % 2 == 0
}

impl Sender {
    ghost use Rattle.wt_inspect_connection.specs.Lists.{has_opened};

    /// Returns whether this end opened a stream: the lowest bit of its ID is 0 for the client, and 1
    /// for the server (RFC 9000, section 2.1).
    pub fn has_opened(self, id: u64) -> bool
        ensures { result ≡ has_opened self id }
    {
        match self {
            Sender::Client => id % 2 == 0,
            Sender::Server => id % 2 == 1,
        }
    }
}

/// Reads a list: a line `STREAM DIRECTION FILE` for each direction of a stream, with one blank
/// between the words, and a line for each datagram. STREAM is the ID of a stream in decimal digits,
/// or `datagrams`; DIRECTION is the end that sent the bytes, `client` or `server`; FILE is the rest
/// of the line, and does not begin with a blank or a tab. Empty lines are ignored, and so is a
/// carriage return at the end of a line.
///
/// # Errors
///
/// Returns the first of these:
///
/// - [`ListError::Line`] at a line that is not of this form, with the first field that is wrong;
/// - [`ListError::NotSent`] at a line of a unidirectional stream that the other end opened;
/// - [`ListError::Twice`] at a line with the stream and direction of a line before it, with the first
///   such line;
/// - [`ListError::Empty`] if there is no entry;
/// - [`ListError::Memory`] if allocation fails.
#[tactic(auto, using(crate::proofs::ListLemmas::reads_next, crate::proofs::ListLemmas::breaks, crate::proofs::ListLemmas::ends))]
pub fn read_list<'a>(alloc: Global, text: &'a str) -> Result<Vec<Entry<'a>>, ListError<'a>>
    ensures read { IfOk result (λ entries. IsList text.now entries.items) }
    ensures some { IfOk result (λ entries. 0 < length entries.items) }
    ensures fails { IfErr result (λ e. ListFails text.now e) }
{
    let mut entries = Vec::new(alloc);
    let mut rest = text;
    let mut number = 0;
    'lines: while !rest.is_empty() {
        let (line, more) = split_line(rest);
        number += 1;
        add_line(&mut entries, line, number)?;
        rest = more;
    }
    if entries.is_empty() {
        return Err(ListError::Empty);
    }
    Ok(entries)
}

/// Returns the first line without its end, and the text after it.
fn split_line(text: &str) -> (&str, &str)
    requires { 0 < length text.now }
    ensures first { result.0.now ≡ first_line text.now }
    ensures rest { result.1.now ≡ more_lines text.now }
    ensures shorter { length result.1.now < length text.now }
{
    match text.split_once('\n') {
        Some((line, rest)) => (without_return(line), rest),
        None => (without_return(text), ""),
    }
}

/// Returns a line without the carriage return at its end, if it has one there.
fn without_return(line: &str) -> &str
    ensures { result.now ≡ without_return line.now }
{
    if line.ends_with('\r') {
        &line[..line.len() - 1]
    } else {
        line
    }
}

/// Adds the entry of a line with this number, unless the line is empty.
fn add_line<'a>(
    entries: &mut Vec<Entry<'a>>,
    line: &'a str,
    number: usize,
) -> Result<(), ListError<'a>>
    ensures added { IfOk result (λ _. AddsLine number line.entry.now entries.old.items
        entries.new.items) }
    ensures fails { IfErr result (λ e. FailsAt number line.entry.now entries.old.items e) }
{
    if line.is_empty() {
        return Ok(());
    }
    match read_line(line, number) {
        Ok(entry) => add_entry(entries, entry),
        Err(wrong) => Err(ListError::Line(number, wrong)),
    }
}

/// Adds the entry of a line.
fn add_entry<'a>(entries: &mut Vec<Entry<'a>>, entry: Entry<'a>) -> Result<(), ListError<'a>>
    ensures added { IfOk result (λ _. (line : List ℕ) → IsLineOf entry.entry line
        → AddsLine entry.entry.line line entries.old.items entries.new.items) }
    ensures fails { IfErr result (λ e. (line : List ℕ) → IsLineOf entry.entry line
        → FailsAt entry.entry.line line entries.old.items e) }
{
    if !may_send(entry.sender, entry.channel) {
        return Err(ListError::NotSent(entry.line));
    }
    if let Some(first) = line_of_same(&entry, entries.as_slice()) {
        return Err(ListError::Twice(entry.line, first));
    }
    match entries.push(entry) {
        Ok(()) => Ok(()),
        Err(_) => Err(ListError::Memory),
    }
}

/// Returns the entry of a line with this number, or the first of its fields that is wrong.
fn read_line(line: &str, number: usize) -> Result<Entry<'_>, LineError<'_>>
    ensures read { IfOk result (λ entry. IsLineOf entry line.now) }
    ensures numbered { IfOk result (λ entry. entry.line ≡ number) }
    ensures none { IfErr result (λ _. IsNoEntry line.now) }
    ensures wrong { IfErr result (λ wrong. IsWrong wrong line.now) }
{
    let (stream, rest) = split_word(line);
    let Some(channel) = read_channel(stream) else {
        return Err(stream_error(stream));
    };
    let (direction, file) = split_word(rest);
    let Some(sender) = read_sender(direction) else {
        return Err(direction_error(direction, rest.is_empty()));
    };
    if let Some(wrong) = file_error(file) {
        return Err(wrong);
    }
    Ok(Entry {
        channel,
        sender,
        file,
        line: number,
    })
}

/// Returns what comes before the first blank, which may be all, and after it, which may be nothing.
fn split_word(text: &str) -> (&str, &str)
    ensures first { result.0.now ≡ first_word text.now }
    ensures rest { result.1.now ≡ more_words text.now }
{
    match text.split_once(' ') {
        Some(parts) => parts,
        None => (text, ""),
    }
}

/// Returns why a word, which is neither an ID nor `datagrams`, is not the first field of a line.
#[tactic(auto, using(crate::proofs::ListLemmas::above))]
fn stream_error(word: &str) -> LineError<'_>
    requires { IsNoChannel word.now }
    ensures { IsWrongStream result word.now }
{
    if is_torn(word) {
        LineError::Gap
    } else if is_numeral(word) {
        LineError::LargeId(word)
    } else {
        LineError::Stream(word)
    }
}

/// Returns why a word, which is not the name of an end, is not the second field of a line. `ends` says
/// whether the line ends after the first one.
fn direction_error(word: &str, ends: bool) -> LineError<'_>
    ensures { IsWrongDirection result «ends» word.now }
{
    if ends {
        LineError::NoDirection
    } else if is_torn(word) {
        LineError::Gap
    } else {
        LineError::Direction(word)
    }
}

/// Returns why a text is not the third field of a line, or `None` if it is one.
fn file_error(file: &str) -> Option<LineError<'_>>
    ensures { MatchOption result ((0 < length file.now) × (begins_blank file.now ≡ false))
        (λ wrong. IsWrongFile wrong file.now) }
{
    if file.is_empty() {
        Some(LineError::NoFile)
    } else if begins_blank(file) {
        Some(LineError::Gap)
    } else {
        None
    }
}

/// Returns whether a text begins with a blank or a tab.
fn begins_blank(text: &str) -> bool
    ensures { result ≡ begins_blank text.now }
{
    match text.as_bytes() {
        [b' ' | b'\t', ..] => true,
        _ => false,
    }
}

/// Returns whether the word of a field is empty or has a tab.
#[tactic(auto, using(crate::proofs::ListLemmas::torn_by))]
fn is_torn(word: &str) -> bool
    ensures { result ≡ is_torn word.now }
{
    if word.is_empty() {
        return true;
    }
    has_tab(word)
}

/// Returns whether a word has a tab.
fn has_tab(word: &str) -> bool
    ensures { result ≡ list_any is_tab word.now }
{
    word.as_bytes().iter().any(|byte| is_tab(*byte))
}

/// Returns whether a byte is a tab.
fn is_tab(byte: u8) -> bool
    ensures { result ≡ is_tab byte }
{
    byte == b'\t'
}

/// Returns whether a word is decimal digits alone.
#[tactic(auto, using(crate::proofs::ListLemmas::numeral_if, crate::proofs::ListLemmas::no_numeral))]
fn is_numeral(word: &str) -> bool
    ensures { MatchBool result (IsNumeral 10 word.now) (IsNumeral 10 word.now → ⊥) }
{
    if word.is_empty() {
        return false;
    }
    has_digits(word)
}

/// Returns whether each byte of a word is a decimal digit.
fn has_digits(word: &str) -> bool
    ensures { result ≡ list_all is_ascii_digit word.now }
{
    word.as_bytes().iter().all(|byte| byte.is_ascii_digit())
}

/// Reads the ID of a stream, or `datagrams`.
fn read_channel(word: &str) -> Option<Channel>
    ensures { MatchOption result (IsNoChannel word.now)
        (λ channel. IsChannel channel word.now) }
{
    if word == "datagrams" {
        return Some(Channel::Datagram);
    }
    match read_id(word) {
        Some(id) => Some(Channel::Stream(id)),
        None => None,
    }
}

/// Reads the ID of a stream: decimal digits alone, of a number below 2^62.
fn read_id(word: &str) -> Option<u64>
    ensures { MatchOption result ((id : ℕ) → IsChannel (Channel.Stream id) word.now → ⊥)
        (λ id. IsChannel (Channel.Stream id) word.now) }
{
    if word.starts_with('+') {
        return None;
    }
    match word.parse::<u64>() {
        Ok(id) if id < MAX_ID => Some(id),
        _ => None,
    }
}

/// Reads the name of an end.
fn read_sender(word: &str) -> Option<Sender>
    ensures { MatchOption result (IsNoSender word.now)
        (λ sender. IsSender sender word.now) }
{
    match word {
        "client" => Some(Sender::Client),
        "server" => Some(Sender::Server),
        _ => None,
    }
}

/// Returns whether an end may send there: on a unidirectional stream, only the end that opened it.
fn may_send(sender: Sender, channel: Channel) -> bool
    ensures { result ≡ may_send sender channel }
{
    match channel {
        Channel::Stream(id) => is_bidirectional(id) || sender.has_opened(id),
        Channel::Datagram => true,
    }
}

/// Returns the line of the first of these entries that is the same direction of the same stream, or
/// `None` if none is.
fn line_of_same(entry: &Entry<'_>, entries: &[Entry<'_>]) -> Option<usize>
    ensures { result ≡ line_of_same entry.now entries.now }
{
    for other in entries {
        if is_same(entry, other) {
            return Some(other.line);
        }
    }
    None
}

/// Returns whether both are the same direction of the same stream. Each datagram is one of its own.
fn is_same(one: &Entry<'_>, other: &Entry<'_>) -> bool
    ensures { result ≡ is_same one.now other.now }
{
    is_same_stream(one.channel, other.channel) && is_same_sender(one.sender, other.sender)
}

/// Returns whether both are the same stream.
fn is_same_stream(one: Channel, other: Channel) -> bool
    ensures { result ≡ is_same_stream one other }
{
    match (one, other) {
        (Channel::Stream(one), Channel::Stream(other)) => one == other,
        _ => false,
    }
}

/// Returns whether both are the same end.
pub(crate) fn is_same_sender(one: Sender, other: Sender) -> bool
    ensures { result ≡ is_same_sender one other }
{
    match (one, other) {
        (Sender::Client, Sender::Client) | (Sender::Server, Sender::Server) => true,
        _ => false,
    }
}
