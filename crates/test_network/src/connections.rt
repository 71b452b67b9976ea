//! The connections of an end.
use std::alloc::{AllocError, Global};
use vesgrauf::connection::Connection;

/// The connections of an end, numbered from 0: those of a server to each client, or the one of a client. An event is of
/// one of them; calls may be made on all of them.
#[derive(Drop)]
pub struct Connections {
    first: Connection,
    others: Vec<Connection>,
    /// The number of the connection of the event.
    peer: usize,
}

impl Connections {
    /// Creates the connections of an end that has one.
    pub(crate) fn new(alloc: Global, first: Connection) -> Self {
        Connections {
            first,
            others: Vec::new(alloc),
            peer: 0,
        }
    }

    /// Adds a connection.
    pub(crate) fn add(&mut self, connection: Connection) -> Result<(), AllocError> {
        self.others.push(connection)?;
        Ok(())
    }

    /// Makes the connection with this number the one of the events to come.
    pub(crate) fn go_to(&mut self, peer: usize) {
        self.peer = peer;
    }

    /// Returns the connection of the event.
    pub fn here(&mut self) -> &mut Connection {
        let other = self.peer.wrapping_sub(1);
        match self.others.get_mut(other) {
            Some(connection) => connection,
            None => &mut self.first,
        }
    }

    /// Returns the number of the connection of the event.
    pub fn peer(&self) -> usize {
        self.peer
    }

    /// Returns the connection with this number, if there is one.
    pub fn of(&mut self, peer: usize) -> Option<&mut Connection> {
        match peer.checked_sub(1) {
            Some(other) => self.others.get_mut(other),
            None => Some(&mut self.first),
        }
    }

    /// Returns how many connections there are, of which some may be over.
    pub fn len(&self) -> usize {
        self.others.len().saturating_add(1)
    }
}
