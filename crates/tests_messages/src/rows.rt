//! Requests, responses and trailers, with the rule of RFC 9114, section 4, that each breaks.
//!
//! A row is a message and changes of it, with bars between them: `name=value` sets a field, at the
//! end if there is none of this name or it is no pseudo-header field, `+name=value` adds one, and
//! `-name` removes one.
use wtp_messages::malformed::Malformed;

/// Messages that break the same rule and no other, or none.
pub(crate) struct Group {
    pub(crate) broken: Option<Malformed>,
    pub(crate) rows: &'static [&'static [u8]],
}

/// A response that breaks no rule.
pub(crate) struct ResponseRow {
    pub(crate) row: &'static [u8],
    pub(crate) status: u32,
    /// The content that is to come.
    pub(crate) left: Option<u64>,
}

/// Requests. They are changes of a GET request, a CONNECT request and a session's request.
pub(crate) static REQUESTS: [Group; 21] = [
    Group {
        broken: None,
        rows: &[
            b"get",
            b"connect",
            b"session",
            b"get|x=\x80\xff",
            b"get|x=a\tb c",
            b"get|x=",
            b"get|cookie=a=b|cookie=c=d",
            b"get|!#$%&'*+-.^_`~09az=x",
            b"get|te=trailers",
            b"get|te=Trailers",
            b"get|content-length=0",
            b"get|content-length=007",
            b"get|content-length=42|content-length=42",
            b"get|content-length=42, 42",
            b"get|content-length=42 ,\t042|content-length=42",
            b"get|content-length=4611686018427387903",
            b"get|:scheme=coap+tcp|-:authority|:path=x",
            b"get|:method=OPTIONS|:path=*",
            b"get|:method=OPTIONS|:path=/a",
            b"get|-:authority|host=example.com",
            b"get|host=EXAMPLE.com",
            b"session|-:authority|host=example.com",
            b"session|:protocol=connect-udp|content-type=a/b",
            b"session|:scheme=HTTPS",
            b"get|:authority=localhost:4433",
            b"get|:authority=127.0.0.1:4433",
            b"get|:authority=[::1]:4433",
            b"get|:authority=[::1]",
            b"get|:authority=[2001:DB8::192.0.2.1]:",
            b"get|:authority=[v7.a:b]:80",
            b"get|:authority=example.com:",
            b"get|:authority=a-b._~!$&'()*+,;=%C3%a9",
            b"get|-:authority|host=[::1]:4433",
            b"get|:scheme=coap+tcp|:authority=a b",
            b"session|:authority=localhost:4433",
            b"connect|:authority=[::1]:4433",
            b"connect|host=EXAMPLE.com:443",
        ],
    },
    Group {
        broken: Some(Malformed::InvalidName),
        rows: &[
            b"get|=x",
            b"get|X-y=x",
            b"get|x y=x",
            b"get|x:y=x",
            b"get|x\x80=x",
            b"get|x\x00=x",
        ],
    },
    Group {
        broken: Some(Malformed::InvalidValue),
        rows: &[
            b"get|x=a\x00b",
            b"get|x=a\rb",
            b"get|x=a\nb",
            b"get|x=a\x7f",
            b"get|x=\x01",
            b"get|x= a",
            b"get|x=a\t",
            b"get|:path=/\n",
        ],
    },
    Group {
        broken: Some(Malformed::ConnectionField),
        rows: &[
            b"get|connection=x",
            b"get|keep-alive=x",
            b"get|proxy-connection=x",
            b"get|transfer-encoding=x",
            b"get|upgrade=x",
            b"session|transfer-encoding=chunked",
        ],
    },
    Group {
        broken: Some(Malformed::InvalidTe),
        rows: &[b"get|te=gzip", b"get|te=trailers, gzip", b"get|te="],
    },
    Group {
        broken: Some(Malformed::UnknownPseudoHeader),
        rows: &[
            b"get|:x=y",
            b"get|:status=200",
            b"get|:=y",
            b"get|:Method=y",
        ],
    },
    Group {
        broken: Some(Malformed::LatePseudoHeader),
        rows: &[b"get|-:path|x=y|:path=/"],
    },
    Group {
        broken: Some(Malformed::RepeatedPseudoHeader),
        rows: &[
            b"get|+:path=/",
            b"get|+:method=GET",
            b"get|+:authority=example.com",
            b"get|+:scheme=https",
            b"session|+:protocol=webtransport",
        ],
    },
    Group {
        broken: Some(Malformed::InvalidContentLength),
        rows: &[
            b"get|content-length=4611686018427387904",
            b"get|content-length=18446744073709551617",
            b"get|content-length=",
            b"get|content-length=+1",
            b"get|content-length=-1",
            b"get|content-length=0x1",
            b"get|content-length=1|content-length=2",
            b"get|content-length=1,2",
            b"get|content-length=1,",
            b"get|content-length=,1",
            b"get|content-length=1 1",
            b"get|content-length=99999999999999999999999999",
        ],
    },
    Group {
        broken: Some(Malformed::MissingMethod),
        rows: &[b"empty", b"get|-:method"],
    },
    Group {
        broken: Some(Malformed::InvalidMethod),
        rows: &[b"get|:method=", b"get|:method=G ET", b"get|:method=GET\x80"],
    },
    Group {
        broken: Some(Malformed::MissingScheme),
        rows: &[b"get|-:scheme", b"session|-:scheme"],
    },
    Group {
        broken: Some(Malformed::InvalidScheme),
        rows: &[
            b"get|:scheme=",
            b"get|:scheme=3a",
            b"get|:scheme=a_b",
            b"session|:scheme=http",
        ],
    },
    Group {
        broken: Some(Malformed::MissingPath),
        rows: &[b"get|-:path", b"session|-:path"],
    },
    Group {
        broken: Some(Malformed::InvalidPath),
        rows: &[
            b"get|:path=",
            b"get|:path=a",
            b"get|:path=*",
            b"get|:path=/a#b",
            b"get|:path=/a b",
            b"get|:scheme=HTTP|:path=",
            b"session|:path=",
            b"get|:method=OPTIONS|:path=**",
        ],
    },
    Group {
        broken: Some(Malformed::MissingAuthority),
        rows: &[
            b"get|-:authority",
            b"get|:authority=",
            b"get|host=",
            b"connect|-:authority",
            b"connect|-:authority|host=example.com",
            b"session|-:authority",
            b"get|-:authority|host=",
        ],
    },
    Group {
        broken: Some(Malformed::InvalidAuthority),
        rows: &[
            b"get|host=example.org",
            b"get|host=example.com|host=example.com",
            b"get|:authority=me@example.com",
            b"get|-:authority|host=me@example.com",
            b"connect|:authority=me@example.com:443",
            b"get|:authority=:443",
            b"get|:authority=:",
            b"get|:authority=a b",
            b"get|:authority=a/b",
            b"get|:authority=a?b",
            b"get|:authority=a#b",
            b"get|:authority=a\\b",
            b"get|:authority=a\x80",
            b"get|:authority=\"a\"",
            b"get|:authority=a<b",
            b"get|:authority=a>b",
            b"get|:authority=a^b",
            b"get|:authority=a`b",
            b"get|:authority=a{b",
            b"get|:authority=a}b",
            b"get|:authority=a\tb",
            b"get|:authority=a%",
            b"get|:authority=a%4",
            b"get|:authority=a%g0",
            b"get|:authority=a:b",
            b"get|:authority=a:443x",
            b"get|:authority=a:1:2",
            b"get|:authority=::1",
            b"get|:authority=[]",
            b"get|:authority=[::1",
            b"get|:authority=[::1]a",
            b"get|:authority=[::1]:x",
            b"get|:authority=[::g]",
            b"get|:authority=[::1%25en0]",
            b"get|:authority=[[::1]]",
            b"get|:authority=a[::1]",
            b"get|:authority=a]",
            b"get|-:authority|host=a b",
            b"get|-:authority|host=:80",
            b"get|:scheme=HTTP|:authority=a b",
            b"session|:authority=a:x",
            b"session|:protocol=connect-udp|:scheme=coap|:authority=a b",
            b"connect|:authority=example.com",
            b"connect|:authority=example.com:",
            b"connect|:authority=[::1]",
            b"connect|:authority=:443",
            b"connect|:authority=443",
        ],
    },
    Group {
        broken: Some(Malformed::ConnectWithTarget),
        rows: &[b"connect|+:path=/", b"connect|+:scheme=https"],
    },
    Group {
        broken: Some(Malformed::UnexpectedProtocol),
        rows: &[b"get|+:protocol=webtransport"],
    },
    Group {
        broken: Some(Malformed::InvalidProtocol),
        rows: &[b"session|:protocol=", b"session|:protocol=a b"],
    },
    Group {
        broken: Some(Malformed::ContentField),
        rows: &[b"session|content-length=0", b"session|content-type=a/b"],
    },
];

/// Responses, by what was asked for, that break a rule.
pub(crate) static MALFORMED_RESPONSES: [Group; 10] = [
    Group {
        broken: Some(Malformed::ConnectionField),
        rows: &[
            b"to other|:status=200|connection=x",
            b"to session|:status=200|transfer-encoding=chunked",
        ],
    },
    Group {
        broken: Some(Malformed::LatePseudoHeader),
        rows: &[b"to other|x=y|:status=200"],
    },
    Group {
        broken: Some(Malformed::InvalidTe),
        rows: &[b"to other|:status=200|te=trailers"],
    },
    Group {
        broken: Some(Malformed::UnknownPseudoHeader),
        rows: &[b"to other|:status=200|+:path=/"],
    },
    Group {
        broken: Some(Malformed::RepeatedPseudoHeader),
        rows: &[b"to other|:status=200|+:status=200"],
    },
    Group {
        broken: Some(Malformed::InvalidContentLength),
        rows: &[
            b"to other|:status=200|content-length=abc",
            b"to connect|:status=403|content-length=abc",
        ],
    },
    Group {
        broken: Some(Malformed::MissingStatus),
        rows: &[b"to other", b"to other|x=y"],
    },
    Group {
        broken: Some(Malformed::InvalidStatus),
        rows: &[
            b"to other|:status=",
            b"to other|:status=99",
            b"to other|:status=099",
            b"to other|:status=0200",
            b"to other|:status=+20",
            b"to other|:status=101",
            b"to other|:status=2x0",
        ],
    },
    Group {
        broken: Some(Malformed::UnexpectedStatus),
        rows: &[
            b"to session|:status=204",
            b"to session|:status=205",
            b"to session|:status=206",
        ],
    },
    Group {
        broken: Some(Malformed::ContentField),
        rows: &[
            b"to session|:status=200|content-length=5",
            b"to session|:status=200|content-type=a/b",
        ],
    },
];

/// Responses that are received, by what was asked for, of which a server sends the first ones never, since
/// they have a `content-length` (RFC 9110, sections 8.6 and 9.3.6).
pub(crate) static SENT_RESPONSES: [Group; 2] = [
    Group {
        broken: Some(Malformed::InvalidContentLength),
        rows: &[
            b"to other|:status=100|content-length=0",
            b"to other|:status=103|content-length=5",
            b"to session|:status=103|content-length=5",
            b"to other|:status=204|content-length=5",
            b"to head|:status=204|content-length=0",
            b"to connect|:status=200|content-length=5",
            b"to connect|:status=299|x=y|content-length=",
        ],
    },
    Group {
        broken: None,
        rows: &[
            b"to other|:status=103|content-type=a/b",
            b"to other|:status=204",
            b"to other|:status=200|content-length=5",
            b"to other|:status=205|content-length=0",
            b"to other|:status=304|content-length=5",
            b"to head|:status=200|content-length=5",
            b"to head|:status=304|content-length=5",
            b"to connect|:status=200",
            b"to connect|:status=300|content-length=5",
            b"to session|:status=404|content-length=5",
        ],
    },
];

/// Responses, by what was asked for.
pub(crate) static RESPONSES: [ResponseRow; 21] = [
    ResponseRow {
        row: b"to other|:status=200",
        status: 200,
        left: None,
    },
    ResponseRow {
        row: b"to other|:status=103",
        status: 103,
        left: Some(0),
    },
    ResponseRow {
        row: b"to other|:status=999",
        status: 999,
        left: None,
    },
    ResponseRow {
        row: b"to session|:status=404",
        status: 404,
        left: None,
    },
    ResponseRow {
        row: b"to other|:status=200|set-cookie=a|set-cookie=b",
        status: 200,
        left: None,
    },
    ResponseRow {
        row: b"to other|:status=200|content-length=5",
        status: 200,
        left: Some(5),
    },
    ResponseRow {
        row: b"to head|:status=200|content-length=5",
        status: 200,
        left: Some(0),
    },
    ResponseRow {
        row: b"to other|:status=204",
        status: 204,
        left: Some(0),
    },
    ResponseRow {
        row: b"to other|:status=304|content-length=5",
        status: 304,
        left: Some(0),
    },
    ResponseRow {
        row: b"to connect|:status=200|content-length=5",
        status: 200,
        left: None,
    },
    ResponseRow {
        row: b"to connect|:status=200|content-length=abc",
        status: 200,
        left: None,
    },
    ResponseRow {
        row: b"to connect|:status=299|content-length=1|content-length=2",
        status: 299,
        left: None,
    },
    ResponseRow {
        row: b"to connect|:status=204",
        status: 204,
        left: None,
    },
    ResponseRow {
        row: b"to connect|:status=205|content-length=5",
        status: 205,
        left: None,
    },
    ResponseRow {
        row: b"to connect|:status=304|content-length=5",
        status: 304,
        left: Some(0),
    },
    ResponseRow {
        row: b"to head|:status=204",
        status: 204,
        left: Some(0),
    },
    ResponseRow {
        row: b"to other|:status=205",
        status: 205,
        left: None,
    },
    ResponseRow {
        row: b"to connect|:status=403|content-length=5",
        status: 403,
        left: Some(5),
    },
    ResponseRow {
        row: b"to session|:status=200",
        status: 200,
        left: None,
    },
    ResponseRow {
        row: b"to session|:status=299",
        status: 299,
        left: None,
    },
    ResponseRow {
        row: b"to session|:status=404|content-length=5",
        status: 404,
        left: Some(5),
    },
];

/// Trailer sections.
pub(crate) static TRAILERS: [Group; 5] = [
    Group {
        broken: None,
        rows: &[
            b"empty",
            b"empty|digest=x",
            b"empty|content-length=x",
            b"empty|content-length=1|content-length=2",
            b"empty|host=a|host=b@c",
        ],
    },
    Group {
        broken: Some(Malformed::UnknownPseudoHeader),
        rows: &[b"empty|:status=200", b"empty|:path=/"],
    },
    Group {
        broken: Some(Malformed::InvalidTe),
        rows: &[b"empty|te=trailers"],
    },
    Group {
        broken: Some(Malformed::ConnectionField),
        rows: &[b"empty|upgrade=x"],
    },
    Group {
        broken: Some(Malformed::InvalidName),
        rows: &[b"empty|=x"],
    },
];
