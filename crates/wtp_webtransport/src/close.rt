//! How a session was closed (draft-ietf-webtrans-http3-02, section 5).
ghost use Rattle.std.specs.Prelude.{◌≡◌, [], None, Some, MatchOption};
ghost use Rattle.wtp_wire.specs.CloseSession.{close_in};

use crate::capsules::SessionCapsule;
use std::fmt;
use std::marker::Model;
use wtp_wire::capsule::capsules::CloseWebTransportSession;

/// How the peer closed a session: an error code and a reason of its application.
#[derive(Drop)]
pub struct Close {
    code: u32,
    /// The capsule that has the reason.
    capsule: Option<SessionCapsule>,
}

impl Model for Close {
    ghost use Rattle.std.specs.Prelude.{ℕ, List};
    ghost use Rattle.wtp_webtransport.specs.Close.{reason_in};

    ghost Value = { ℕ × List ℕ };

    ghost view = { λ c. (c.code, reason_in c.capsule) };
}

impl Close {
    // Creates a close without a capsule, which has the code 0 and no reason.
    pub(crate) fn clean() -> Self
        ensures { result ≡ (0, []) }
    {
        Close {
            code: 0,
            capsule: None,
        }
    }

    // Reads the code and the reason of a capsule that closes its session. Returns `None` if it is not
    // valid.
    pub(crate) fn read(capsule: SessionCapsule) -> Option<Self>
        ensures { MatchOption result (close_in capsule.1 ≡ None) (λ c. close_in capsule.1 ≡ Some c) }
    {
        let (code, _) = CloseWebTransportSession::code_and_reason(capsule.value())?;
        Some(Close {
            code,
            capsule: Some(capsule),
        })
    }

    /// Returns the error code of the application.
    pub fn code(&self) -> u32
        ensures { result ≡ self.now.0 }
    {
        self.code
    }

    /// Returns the reason, which is UTF-8.
    pub fn reason(&self) -> &[u8]
        ensures { result.now ≡ self.now.1 }
    {
        match &self.capsule {
            Some(capsule) => capsule.value().get(4..).unwrap_or(&[]),
            None => &[],
        }
    }
}

impl fmt::Debug for Close {
    fn fmt<W: fmt::Write>(&self, f: &mut fmt::Formatter<W>) -> fmt::Result {
        f.debug_struct("Close")
            .field("code", &self.code())
            .field("reason", &self.reason())
            .finish()
    }
}
