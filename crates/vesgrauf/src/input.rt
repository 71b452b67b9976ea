//! What QUIC reports.
use vesgrauf_stream::bytes::Chunk;

/// What QUIC reports. It borrows the bytes of the caller; what
/// [`next_event`](crate::connection::Connection::next_event) has not taken in stays in it.
#[derive(Drop)]
pub struct Input<'a> {
    pub(crate) report: Report,
    /// The bytes that are not taken in, and the end after them.
    pub(crate) chunk: Chunk<'a>,
    /// How many bytes were taken in.
    pub(crate) credit: usize,
}

/// What is reported.
#[derive(Clone, Copy)]
pub(crate) enum Report {
    /// Nothing that is not taken in.
    Nothing,
    /// Bytes of a stream.
    Stream(u64),
    /// The peer reset a stream.
    Reset(u64, u64),
    /// The peer asked to stop a stream.
    Stopped(u64, u64),
    /// QUIC has closed a stream.
    Closed(u64),
    /// A datagram.
    Datagram,
    /// The size of datagrams.
    DatagramLimit(usize),
    /// The connection is closed.
    ConnectionClosed(u64),
}

impl<'a> Input<'a> {
    ghost use Rattle.std.specs.Prelude.{◌≡◌, true, false, []};
    ghost use Rattle.vesgrauf.specs.declared.input.Report.TheVariants.{Nothing, Stream, Reset, Stopped, Closed, Datagram, DatagramLimit, ConnectionClosed};
    ghost use Rattle.vesgrauf.specs.Inputs.{Brings, IsSameOrRead};

    /// Bytes of a stream came. `fin`: the stream ends after them.
    pub fn stream(id: u64, bytes: &'a [u8], fin: bool) -> Self
        ensures { Brings (Stream id) bytes.now fin result }
    {
        Input {
            report: Report::Stream(id),
            chunk: Chunk::new(bytes, fin),
            credit: 0,
        }
    }

    /// The peer reset a stream: RESET_STREAM came (RFC 9000, section 19.4).
    pub fn stream_reset(id: u64, code: u64) -> Self
        ensures { Brings (Reset id code) [] false result }
    {
        Input::of(Report::Reset(id, code))
    }

    /// The peer asked to stop a stream: STOP_SENDING came (RFC 9000, section 19.5).
    pub fn stop_sending(id: u64, code: u64) -> Self
        ensures { Brings (Stopped id code) [] false result }
    {
        Input::of(Report::Stopped(id, code))
    }

    /// QUIC has closed a stream, and keeps no pointer to its bytes.
    pub fn stream_closed(id: u64) -> Self
        ensures { Brings (Closed id) [] false result }
    {
        Input::of(Report::Closed(id))
    }

    /// A datagram came (RFC 9221).
    pub fn datagram(bytes: &'a [u8]) -> Self
        ensures { Brings Datagram bytes.now false result }
    {
        Input {
            report: Report::Datagram,
            chunk: Chunk::new(bytes, false),
            credit: 0,
        }
    }

    /// How many bytes a datagram of QUIC may have from now on: 0 if the peer takes none.
    pub fn datagram_limit(len: usize) -> Self
        ensures { Brings (DatagramLimit len) [] false result }
    {
        Input::of(Report::DatagramLimit(len))
    }

    /// The peer or QUIC closed the connection, with this code.
    pub fn connection_closed(code: u64) -> Self
        ensures { Brings (ConnectionClosed code) [] false result }
    {
        Input::of(Report::ConnectionClosed(code))
    }

    /// Nothing came: for events that own calls caused.
    pub fn none() -> Self
        ensures { Brings Nothing [] false result }
    {
        Input::of(Report::Nothing)
    }

    fn of(report: Report) -> Self
        ensures { Brings report [] false result }
    {
        Input {
            report,
            chunk: Chunk::new(&[], false),
            credit: 0,
        }
    }

    /// Returns by how many bytes QUIC's windows of the stream and of the connection are to be extended. Ask once
    /// [`next_event`](crate::connection::Connection::next_event) has returned `None`.
    pub fn credit(&self) -> usize
        ensures { result ≡ self.now.credit }
    {
        self.credit
    }

    // Returns whether all of it is taken in.
    pub(crate) fn is_taken(&self) -> bool
        ensures { result ≡ true → self.now.report ≡ Nothing }
    {
        matches!(self.report, Report::Nothing)
    }

    // Counts what was taken in of `len` bytes.
    pub(crate) fn count(&mut self, len: usize)
        ensures report { self.new.report ≡ self.old.report }
        ensures chunk { self.new.chunk ≡ self.old.chunk }
    {
        self.credit = self
            .credit
            .saturating_add(len.saturating_sub(self.chunk.len()));
    }

    // Counts so many bytes that were taken in.
    #[inline(always)]
    pub(crate) fn count_read(&mut self, read: usize)
        ensures report { self.new.report ≡ self.old.report }
        ensures chunk { self.new.chunk ≡ self.old.chunk }
    {
        self.credit = self.credit.saturating_add(read);
    }

    // Nothing is left to report if all bytes are taken in, and if the stream does not end after them.
    pub(crate) fn end_if_read(&mut self)
        ensures { IsSameOrRead self.old self.new }
    {
        if self.chunk.len() == 0 && !self.chunk.is_last() {
            self.report = Report::Nothing;
        }
    }

    // Drops what is not taken in, and counts it.
    pub(crate) fn drop_rest(&mut self)
        ensures report { self.new.report ≡ self.old.report }
        ensures bytes { self.new.chunk.bytes.now ≡ [] }
        ensures fin { self.new.chunk.fin ≡ self.old.chunk.fin }
    {
        self.credit = self.credit.saturating_add(self.chunk.len());
        self.chunk = Chunk::new(&[], self.chunk.is_last());
    }
}
