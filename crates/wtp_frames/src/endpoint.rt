//! What the rules of frames depend on at the receiving endpoint.
ghost use Rattle.std.specs.Prelude.{◌≡◌, false};

/// Which endpoint of the connection receives.
#[derive(Clone, Copy, PartialEq, Eq)]
pub enum Side {
    /// The client: it receives responses, and the server's control stream.
    Client,
    /// The server: it receives requests, and the client's control stream.
    Server,
}

/// The receiving endpoint: which side it is, and what it announced and limits.
#[derive(Clone, Copy)]
pub struct Endpoint {
    /// Which side it is.
    pub side: Side,
    /// Whether its SETTINGS enable WebTransport. If not, 0x41 is an unknown frame type (RFC 9114,
    /// section 9).
    pub webtransport: bool,
    /// Whether its SETTINGS enable HTTP datagrams. If not, those that come are dropped (RFC 9297,
    /// section 2.1.1).
    pub datagrams: bool,
    /// The largest encoded field section that is returned, in bytes. A larger one is skipped, and
    /// its size is reported (RFC 9114, section 4.2.2).
    pub max_section: u32,
}

impl Endpoint {
    /// Creates an endpoint that returns field sections of up to 65,536 bytes, without WebTransport
    /// and datagrams.
    pub fn new(side: Side) -> Self
        ensures { result ≡ record {
          side = side;
          webtransport = false;
          datagrams = false;
          max_section = 65536;
        } }
    {
        Endpoint {
            side,
            webtransport: false,
            datagrams: false,
            max_section: 65_536,
        }
    }
}
