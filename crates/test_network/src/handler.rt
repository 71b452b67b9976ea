//! What a program does with its connections.
use crate::connections::Connections;
use anyhow::Result;
use vesgrauf::event::Event;

/// What a program does with the connections of its end.
pub trait Handler {
    /// Handles an event of the connection `on.here()`. Calls may be made on all connections.
    fn event(&mut self, on: &mut Connections, event: Event<'_>) -> Result<()>;

    /// Does what is due without an event. Called for each connection in each step, as `on.here()`.
    fn turn(&mut self, _on: &mut Connections) -> Result<()> {
        Ok(())
    }
}
