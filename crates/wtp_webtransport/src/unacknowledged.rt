//! The field section that is to be acknowledged (RFC 9204, section 4.4.1).
ghost use Rattle.std.specs.Prelude.{◌≡◌, Some};
ghost use Rattle.wtp_webtransport.specs.Unacknowledged.{just_read, after_cancellation, due_on as due_on_is, still_due as still_due_is};

use wtp_core::varint::VarInt;

/// A field section that was read with the dynamic table, until it is acknowledged.
#[derive(Clone, Copy)]
pub struct Unacknowledged {
    /// How many insertions it needed.
    pub required: u64,
    /// The ID of a stream that was cancelled since it was read. If the section is of this stream, it
    /// is not acknowledged (RFC 9204, section 2.2.2.2).
    pub cancelled: Option<VarInt>,
}

impl Unacknowledged {
    // Creates that of a section that was just read.
    pub(crate) fn new(required: u64) -> Self
        ensures { result ≡ just_read required }
    {
        Unacknowledged {
            required,
            cancelled: None,
        }
    }

    // Returns how many insertions are to be acknowledged on the stream with this ID: none if it was
    // cancelled since.
    fn due(self, id: u64) -> Option<u64>
        ensures { result ≡ due_on_is (Some self) id }
    {
        let is_cancelled = match self.cancelled {
            None => false,
            Some(other) => other.into_inner() == id,
        };
        if is_cancelled {
            None
        } else {
            Some(self.required)
        }
    }

    // Returns the section after the cancellation of the stream with this ID.
    fn after_cancellation(self, id: u64) -> Option<Self>
        ensures { result ≡ after_cancellation self id }
    {
        let Ok(stream) = VarInt::try_from_u64(id) else {
            return Some(self);
        };
        match self.cancelled {
            None => Some(Unacknowledged {
                cancelled: Some(stream),
                ..self
            }),
            Some(before) => {
                if before.into_inner() == id {
                    Some(self)
                } else {
                    None
                }
            }
        }
    }
}

/// Returns how many insertions the section needed that is to be acknowledged on the stream with this ID, if
/// one is: not if this stream was cancelled since.
pub fn due_on(read: Option<Unacknowledged>, id: u64) -> Option<u64>
    ensures { result ≡ due_on_is read id }
{
    match read {
        None => None,
        Some(section) => section.due(id),
    }
}

/// Returns what is to be acknowledged after the cancellation of the stream with this ID. The section of
/// another stream is; since its stream is known once it is acknowledged, none is after the cancellations
/// of two streams.
pub fn still_due(read: Option<Unacknowledged>, id: u64) -> Option<Unacknowledged>
    ensures { result ≡ still_due_is read id }
{
    match read {
        None => None,
        Some(section) => section.after_cancellation(id),
    }
}
