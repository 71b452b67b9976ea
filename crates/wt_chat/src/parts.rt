//! What the guests do, each on one of three connections.
use crate::guests::Todo;
use vesgrauf::output::StreamKind;

const HERE: &str = "https://chat.example";

const ELSEWHERE: &str = "https://elsewhere.example";

/// A line of 600 bytes.
const LONG: &str =
    "012345678901234567890123456789012345678901234567890123456789012345678901234567890123456789012345678901234567890123456789012345678901234567890123456789012345678901234567890123456789012345678901234567890123456789012345678901234567890123456789012345678901234567890123456789012345678901234567890123456789012345678901234567890123456789012345678901234567890123456789012345678901234567890123456789012345678901234567890123456789012345678901234567890123456789012345678901234567890123456789012345678901234567890123456789012345678901234567890123456789012345678901234567890123456789012345678901234567890123456789";

/// Three find their way.
pub static ARRIVING: [(usize, Todo); 6] = [
    (0, Todo::Join("ann", "/chat?name=ann", HERE)),
    (1, Todo::Join("bob", "/chat?name=bob", HERE)),
    (1, Todo::Join("cat", "/chat?name=cat", HERE)),
    (2, Todo::Join("dan", "/other?name=dan", HERE)),
    (2, Todo::Join("eve", "/chat?name=eve", ELSEWHERE)),
    (2, Todo::Join("fay", "/chat", HERE)),
];

/// There is no place for a fourth.
pub static ONE_MORE: [(usize, Todo); 1] = [(2, Todo::Join("hal", "/chat?name=hal", HERE))];

/// The room hears lines and a datagram, beside a large answer.
pub static TALKING: [(usize, Todo); 5] = [
    (0, Todo::Say("ann", StreamKind::Bidirectional, "hello all")),
    (0, Todo::Get("/big")),
    (1, Todo::Say("bob", StreamKind::Unidirectional, "hi ann")),
    (1, Todo::SayInDatagram("cat", "ping")),
    (1, Todo::Say("bob", StreamKind::Bidirectional, LONG)),
];

/// While the guests leave, a request is still answered.
pub static LEAVING: [(usize, Todo); 1] = [(2, Todo::Get("/"))];

/// When the room is closed, none is.
pub static AFTERWARDS: [(usize, Todo); 1] = [(0, Todo::Get("/"))];
