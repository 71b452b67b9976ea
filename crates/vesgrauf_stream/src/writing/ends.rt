//! How far the own half of a stream is.
ghost use Rattle.std.specs.Prelude.{◌≡◌};
ghost use Rattle.vesgrauf_stream.specs.Writing.{is_none as is_none_is, is_finished as is_finished_is, is_connect as is_connect_is};

use crate::writing::Writing;
use crate::writing::half::Half;
use vesgrauf_queue::ending::Ending;

impl Writing {
    /// Returns whether there is no own half.
    pub fn is_none(&self) -> bool
        ensures { result ≡ is_none_is self.now.half }
    {
        matches!(self.half, Half::None)
    }

    /// Returns whether this is a CONNECT request that is not answered, or its tunnel or session, and was not finished.
    pub fn is_connect(&self) -> bool
        ensures { result ≡ is_connect_is self.now.half }
    {
        match &self.half {
            Half::Message(message) => message.is_connect(),
            _ => false,
        }
    }

    /// Returns whether the half was finished, and not reset.
    pub fn is_finished(&self) -> bool
        ensures { result ≡ is_finished_is self.now.queue.ending }
    {
        matches!(self.queue.ending(), Ending::Finishing | Ending::Finished)
    }
}
