//! A connection between a client and a server.
use crate::conditions::{Chance, Conditions};
use crate::connections::Connections;
use crate::end::{End, SERVER};
use crate::handler::Handler;
use crate::wire::Wire;
use anyhow::Result;
use std::alloc::Global;
use vesgrauf::input::Input;

/// A connection between a client and a server: what carries it. The programs at its ends have the rest.
#[derive(Drop)]
pub(crate) struct Link {
    client: End,
    server: End,
    up: Wire,
    down: Wire,
    max_datagram: usize,
    is_begun: bool,
}

impl Link {
    /// Creates a connection with this number on which nothing was sent.
    pub(crate) fn new(alloc: Global, peer: usize, conditions: Conditions) -> Self {
        Link {
            client: End::new(alloc, peer, 0, conditions),
            server: End::new(alloc, peer, SERVER, conditions),
            up: Wire::new(alloc),
            down: Wire::new(alloc),
            max_datagram: conditions.max_datagram,
            is_begun: false,
        }
    }

    /// Lets both ends do what is due without an event. At first they are told how large a datagram may be.
    pub(crate) fn turn<C: Handler, S: Handler>(
        &mut self,
        client: &mut C,
        at_client: &mut Connections,
        server: &mut S,
        at_server: &mut Connections,
    ) -> Result<()> {
        if !self.is_begun {
            self.is_begun = true;
            let limit = self.max_datagram;
            self.client
                .hear(client, at_client, Input::datagram_limit(limit))?;
            self.server
                .hear(server, at_server, Input::datagram_limit(limit))?;
        }
        client.turn(at_client)?;
        server.turn(at_server)
    }

    /// Tells both ends what happened, and carries some of what they send. Returns whether nothing happened.
    pub(crate) fn step<C: Handler, S: Handler>(
        &mut self,
        client: &mut C,
        at_client: &mut Connections,
        server: &mut S,
        at_server: &mut Connections,
        chance: &mut Chance,
    ) -> Result<bool> {
        let (_, by_client) = self.client.hear(client, at_client, Input::none())?;
        let (_, by_server) = self.server.hear(server, at_server, Input::none())?;
        self.client.retry(at_client.here())?;
        self.server.retry(at_server.here())?;
        let sent_up = self.client.send(at_client.here(), &mut self.up, chance)?;
        let sent_down = self.server.send(at_server.here(), &mut self.down, chance)?;
        let is_quiet = self.up.is_quiet()? && self.down.is_quiet()?;
        self.server
            .receive(server, at_server, &mut self.up, &mut self.down, chance)?;
        self.client
            .receive(client, at_client, &mut self.down, &mut self.up, chance)?;
        Ok(is_quiet && !(by_client || by_server || sent_up || sent_down))
    }
}
