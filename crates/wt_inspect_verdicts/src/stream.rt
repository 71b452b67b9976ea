//! The bytes of a stream that is judged.
ghost use Rattle.std.specs.Prelude.{◌≡◌};

use vesgrauf::input::Input;

/// A stream on which the peer sent something.
#[derive(Clone, Copy)]
pub(crate) struct Stream<'a> {
    /// What the peer sent on it that was not read.
    rest: &'a [u8],
    /// How many of these bytes, the last ones, are not to be read yet.
    hidden: usize,
    /// The encoded Required Insert Count of its first field section (RFC 9204, section 4.5.1.1).
    count: u64,
    /// Whether the stream ends after the bytes.
    fin: bool,
}

impl<'a> Stream<'a> {
    ghost use Rattle.std.specs.Prelude.{◌-◌, drop, length};
    ghost use Rattle.vesgrauf.specs.Inputs.{Brings};
    ghost use Rattle.vesgrauf.specs.declared.input.Report.TheVariants as report;
    ghost use Rattle.wt_inspect_verdicts.specs.Streams.{ends_in, unread_in};

    /// Creates a stream with these bytes, of which all may be read.
    pub(crate) fn new(bytes: &'a [u8], count: u64, fin: bool) -> Self
        ensures unread { unread_in result ≡ bytes.entry.now }
        ensures ends { ends_in result ≡ fin }
    {
        Stream {
            rest: bytes,
            hidden: 0,
            count,
            fin,
        }
    }

    /// Returns the encoded Required Insert Count of its first field section.
    pub(crate) fn count(&self) -> u64
        ensures { result ≡ self.now.count }
    {
        self.count
    }

    /// Returns the bytes that may be read now as an input of the stream with this ID, and leaves the hidden ones.
    pub(crate) fn read(&mut self, id: u64) -> Input<'a>
        ensures input { Brings (report.Stream id) (unread_in self.old) (ends_in self.old) result }
        ensures rest { self.new.rest.now
            ≡ drop (length self.old.rest.now - self.old.hidden) self.old.rest.now }
        ensures hidden { self.new.hidden ≡ self.old.hidden }
        ensures fin { self.new.fin ≡ self.old.fin }
    {
        let (unread, rest) = self
            .rest
            .split_at(self.rest.len().saturating_sub(self.hidden));
        self.rest = rest;
        Input::stream(id, unread, self.fin && self.hidden == 0)
    }

    /// Lets only so many bytes be read.
    pub(crate) fn limit(&mut self, size: usize)
        ensures { self.new ≡ record self.old { hidden = length self.old.rest.now - size } }
    {
        self.hidden = self.rest.len().saturating_sub(size);
    }

    /// Lets so many more bytes be read.
    pub(crate) fn reveal(&mut self, size: usize)
        ensures { self.new ≡ record self.old { hidden = self.old.hidden - size } }
    {
        self.hidden = self.hidden.saturating_sub(size);
    }
}
