//! The own control stream, and the own streams of QPACK.
use crate::output::Next;
use std::alloc::Global;
use vesgrauf_queue::config::QueueConfig;
use vesgrauf_queue::ending::Ending;
use vesgrauf_queue::error::{NotQueued, NotShown};
use vesgrauf_queue::queue::Queue;
use vesgrauf_queue::spares::Spares;

/// An own stream that is open as long as the connection: the control stream (RFC 9114, section 6.2.1), or one of QPACK
/// (RFC 9204, section 4.2).
#[derive(Drop)]
pub(crate) struct Critical {
    /// Its ID, once there is one.
    pub(crate) id: Option<u64>,
    /// Whether QUIC has opened it.
    pub(crate) is_opened: bool,
    /// Whether QUIC takes nothing of it.
    pub(crate) is_blocked: bool,
    /// What is to be sent.
    pub(crate) queue: Queue,
}

impl Critical {
    ghost use Rattle.std.specs.Prelude.{◌≡◌, ◌⊎◌, ◌==◌, ◌++◌, ◌↔◌, [], take, drop, length, not, false, true, IsTrue, None, Some, option_map, MatchOption, IfSome, OnOk, OnErr, IfErr};
    ghost use Rattle.vesgrauf_queue.specs.State.{IsIdle, Shows};
    ghost use Rattle.vesgrauf_queue.specs.Steps.{IsNew, Does, Puts, ends_with};
    ghost use Rattle.vesgrauf_queue.specs.State.{waiting, IsWhyNot};
    ghost use Rattle.vesgrauf_queue.specs.Pieces.{shown};
    ghost use Rattle.vesgrauf.specs.Streams.{IsDue, IsNotDue, ShowsOwn, Says, is_it};

    // Creates a stream that has no ID yet.
    pub(crate) fn new(alloc: Global, config: QueueConfig) -> Self
        ensures id { result.id ≡ None }
        ensures opened { result.is_opened ≡ false }
        ensures blocked { result.is_blocked ≡ false }
        ensures queue { IsNew config result.queue }
    {
        Critical {
            id: None,
            is_opened: false,
            is_blocked: false,
            queue: Queue::new(alloc, config),
        }
    }

    // Returns whether it has this ID.
    pub(crate) fn is(&self, id: u64) -> bool
        ensures { result ≡ is_it id self.now.id }
    {
        self.id == Some(id)
    }

    // Returns whether nothing waits to be sent.
    pub(crate) fn is_idle(&self) -> bool
        ensures { IsTrue result ↔ IsIdle self.now.queue }
    {
        !self.queue.has_waiting() && !matches!(self.queue.ending(), Ending::Finishing)
    }

    // Returns whether QUIC may take bytes, and there are some.
    pub(crate) fn is_due(&self) -> bool
        ensures { IsTrue result ↔ IsDue self.now }
    {
        self.is_opened && !self.is_blocked && !self.is_idle()
    }

    // Returns whether what is queued is sent at once, as far as can be known.
    pub(crate) fn is_free(&self) -> bool {
        self.id.is_some() && !self.is_blocked && self.is_idle()
    }

    // Queues bytes.
    pub(crate) fn push(&mut self, spares: &mut Spares, bytes: &[u8]) -> Result<(), NotQueued>
        ensures ok { OnOk result (Says bytes.now self.old self.new) }
        ensures err { IfErr result (λ why. IsWhyNot self.old.queue (length bytes.now) why) }
        ensures kept { OnErr result (self.new ≡ self.old) }
    {
        if bytes.is_empty() {
            return Ok(());
        }
        match self.queue.push(spares, &[], bytes) {
            Ok(_room) => Ok(()),
            Err(why) => Err(why),
        }
    }

    // Returns what QUIC is to take next.
    pub(crate) fn next(&self) -> Option<Next<'_>>
        ensures { MatchOption result ((self.now.id ≡ None) ⊎ IsIdle self.now.queue)
            (λ n. (self.now.id ≡ Some n.id) × Shows self.now.queue n.bytes.now n.more.now n.fin) }
    {
        let Some(id) = self.id else {
            return None;
        };
        match self.queue.next() {
            Some(next) => Some(Next {
                id,
                bytes: next.bytes,
                more: next.more,
                fin: next.fin,
            }),
            None => None,
        }
    }

    // Returns what QUIC is to take next, if it may take bytes and there are some.
    pub(crate) fn next_due(&self) -> Option<Next<'_>>
        ensures next { IfSome result (λ n. ShowsOwn self.now n.id n.bytes.now n.more.now n.fin) }
        ensures none { result ≡ None → IsNotDue self.now }
    {
        if !self.is_due() {
            return None;
        }
        self.next()
    }

    // QUIC took bytes.
    pub(crate) fn sent(&mut self, spares: &mut Spares, len: usize) -> Result<(), NotShown>
        ensures ok { OnOk result (Does (Puts (take len (waiting self.old.queue))
            (ends_with self.old.queue (drop len (waiting self.old.queue)))) self.old.queue self.new.queue) }
        ensures others { self.new ≡ record self.old { queue = self.new.queue } }
        ensures err { OnErr result (self.new ≡ self.old) }
    {
        self.queue.sent(spares, len)
    }
}
