//! A server and its clients over a network.
use crate::conditions::{Chance, Conditions};
use crate::connections::Connections;
use crate::handler::Handler;
use crate::link::Link;
use anyhow::{Result, bail};
use std::alloc::Global;
use vesgrauf::config::Config;
use vesgrauf::connection::Connection;

/// The most steps of a run.
const STEPS: u32 = 200_000;

/// A client, and its connection to the server.
#[derive(Drop)]
struct Client<C: Handler + Drop> {
    handler: C,
    on: Connections,
    link: Link,
}

/// A server and its clients, each with a connection of its own.
#[derive(Drop)]
pub struct Network<S: Handler + Drop, C: Handler + Drop> {
    alloc: Global,
    chance: Chance,
    /// The server.
    pub server: S,
    /// The server's connections, once there is one.
    at_server: Option<Connections>,
    clients: Vec<Client<C>>,
}

impl<S: Handler + Drop, C: Handler + Drop> Network<S, C> {
    /// Creates a network with a server. What the network does depends on the conditions and the seed alone.
    pub fn new(alloc: Global, conditions: Conditions, seed: u64, server: S) -> Self {
        Network {
            alloc,
            chance: Chance::new(conditions, seed),
            server,
            at_server: None,
            clients: Vec::new(alloc),
        }
    }

    /// Connects a client to the server. Returns the number of the connection at the server.
    pub fn connect(&mut self, client: C) -> Result<usize> {
        self.connect_with(client, Config::client(), Config::server())
    }

    /// Connects a client to the server, with these configurations of its end and the server's. Returns the number of
    /// the connection at the server.
    pub fn connect_with(&mut self, handler: C, client: Config, server: Config) -> Result<usize> {
        let peer = self.clients.len();
        let first = Connection::new(self.alloc, client)?;
        let connection = Connection::new(self.alloc, server)?;
        // (so that both ends have the connection, or none)
        self.clients.reserve(1)?;
        self.add_to_server(connection)?;
        self.clients.push(Client {
            handler,
            on: Connections::new(self.alloc, first),
            link: Link::new(self.alloc, peer, self.chance.conditions),
        })?;
        Ok(peer)
    }

    /// Adds a connection at the server's end.
    fn add_to_server(&mut self, connection: Connection) -> Result<()> {
        if let Some(connections) = &mut self.at_server {
            return Ok(connections.add(connection)?);
        }
        self.at_server = Some(Connections::new(self.alloc, connection));
        Ok(())
    }

    /// Lets each end go on, carries some of what they send, and returns whether nothing happened: no end had an event
    /// or sent anything, and nothing is delayed or under way, so each waits for the other.
    pub fn step(&mut self) -> Result<bool> {
        let Some(at_server) = &mut self.at_server else {
            return Ok(true);
        };
        // All turns come first, so that what one of them sends on another connection goes on in this step.
        for (peer, client) in self.clients.iter_mut().enumerate() {
            at_server.go_to(peer);
            client.link.turn(
                &mut client.handler,
                &mut client.on,
                &mut self.server,
                at_server,
            )?;
        }
        let mut is_quiet = true;
        for (peer, client) in self.clients.iter_mut().enumerate() {
            at_server.go_to(peer);
            let quiet = client.link.step(
                &mut client.handler,
                &mut client.on,
                &mut self.server,
                at_server,
                &mut self.chance,
            )?;
            is_quiet = is_quiet && quiet;
        }
        Ok(is_quiet)
    }

    /// Lets the ends go on until nothing happens.
    ///
    /// Returns an error if a handler does, an end asks QUIC for what may not be, or the ends go on for too long.
    pub fn run_until_quiet(&mut self) -> Result<()> {
        for _step in 0..STEPS {
            if self.step()? {
                return Ok(());
            }
        }
        bail!("the network is not quiet");
    }

    /// Returns a client.
    pub fn client(&mut self, peer: usize) -> Option<&mut C> {
        match self.clients.get_mut(peer) {
            Some(client) => Some(&mut client.handler),
            None => None,
        }
    }

    /// Returns the connection at a client's end.
    pub fn client_connection(&mut self, peer: usize) -> Option<&mut Connection> {
        match self.clients.get_mut(peer) {
            Some(client) => Some(client.on.here()),
            None => None,
        }
    }

    /// Returns the connection at the server's end.
    pub fn server_connection(&mut self, peer: usize) -> Option<&mut Connection> {
        match &mut self.at_server {
            Some(connections) => connections.of(peer),
            None => None,
        }
    }
}
