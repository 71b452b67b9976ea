//! What a caller proposes to index, and the policy of an encoder (RFC 9204, sections 2.1.1.1 and
//! 7.1.3).

ghost use Rattle.std.specs.Prelude.{◌≡◌};
ghost use Rattle.wtp_dynamic_encoder.specs.Choosing.{is_never, is_proposed, default_policy};

/// How a field is indexed.
#[derive(Clone, Copy)]
pub enum Indexing {
    /// It is inserted if its entry is not larger than the [`Policy`] allows, and lines may then refer
    /// to it.
    ByPolicy,
    /// It is inserted if lines may then refer to it: if its entry is not larger than the capacity
    /// without the bytes that the [`Policy`] keeps available.
    Insert,
    /// It is not inserted.
    Without,
    /// It is never indexed: unless it is an entry of the static table, whose value everyone knows, its
    /// line is a literal with the bit N, so that whoever passes it on does not index it either (section
    /// 7.1.3). For values that an attacker should not guess.
    Never,
}

/// What an encoder inserts by itself, to which entries it no longer refers, and how many sections it
/// keeps.
#[derive(Clone, Copy)]
pub struct Policy {
    /// The size of the largest entry that is inserted for [`Indexing::ByPolicy`], in bytes by
    /// section 3.2.1: of the name and the value, and 32.
    pub largest: u64,
    /// How many bytes of the table to keep available, at most half of its capacity. The entries
    /// that would be evicted for them are draining: no line refers to them, and they are inserted
    /// again when they are needed (section 2.1.1.1). A larger entry than the other bytes is never
    /// inserted, since no line could refer to it.
    pub reserved: u64,
    /// How many sections that refer to the dynamic table may be unacknowledged. As long as so many
    /// are, sections refer to no entry of it.
    pub unacknowledged: u64,
}

impl Policy {
    /// Returns the policy of an encoder that was not told otherwise: entries of at most 1024 bytes,
    /// 512 bytes that are kept available, and 256 sections that are not acknowledged.
    pub fn new() -> Self
        ensures { result ≡ default_policy }
    {
        Policy {
            largest: 1024,
            reserved: 512,
            unacknowledged: 256,
        }
    }

    /// Returns whether a field is to be an entry, if neither table has it.
    pub(crate) fn proposes(self, proposal: Proposal<'_>) -> bool
        ensures { result ≡ is_proposed self (proposal.entry.name.now, proposal.entry.value.now)
            proposal.entry.indexing }
    {
        match proposal.indexing {
            Indexing::ByPolicy => match self.largest.checked_sub(32) {
                Some(room) => proposal.name.len() as u64 + proposal.value.len() as u64 <= room,
                None => false,
            },
            Indexing::Insert => true,
            Indexing::Without | Indexing::Never => false,
        }
    }
}

/// A field to encode, and how it is indexed.
///
/// An entry is inserted only if it may be, so every proposal leads to sections that the decoder
/// reads as the same fields.
#[derive(Clone, Copy)]
pub struct Proposal<'a> {
    /// The name.
    pub name: &'a [u8],
    /// The value.
    pub value: &'a [u8],
    /// Whether it is inserted, if neither table has it.
    pub indexing: Indexing,
}

impl<'a> Proposal<'a> {
    /// Creates the proposal of a field that is inserted if the encoder's policy says so.
    pub fn new(name: &'a [u8], value: &'a [u8]) -> Self
        ensures { result ≡ record {
          name = name.entry;
          value = value.entry;
          indexing = Indexing.ByPolicy;
        } }
    {
        Proposal {
            name,
            value,
            indexing: Indexing::ByPolicy,
        }
    }

    /// Creates the proposal of a field that is never indexed.
    pub fn never_indexed(name: &'a [u8], value: &'a [u8]) -> Self
        ensures { result ≡ record { name = name.entry; value = value.entry; indexing = Indexing.Never } }
    {
        Proposal {
            name,
            value,
            indexing: Indexing::Never,
        }
    }

    /// Returns whether the field is never indexed.
    pub fn is_never_indexed(&self) -> bool
        ensures { result ≡ is_never self.now.indexing }
    {
        matches!(self.indexing, Indexing::Never)
    }
}
