//! A server and a client of HTTP/3 with sessions of WebTransport, over a network in memory.
#![tactic(auto)]

mod client;
mod server;

use crate::client::Client;
use crate::server::Server;
use anyhow::{Result, bail};
use std::alloc::Global;
use std::env::{self, Env};
use std::{io, mem};
use test_network::conditions::Conditions;
use test_network::network::Network;

fn main(rt: HostRuntime) -> Result<()> {
    let alloc = rt.alloc();
    let runs = runs(arguments(&rt)?.as_slice())?;
    let lines = run(alloc, Conditions::ideal(), 0)?;
    for line in &lines {
        println!(rt; "{line}")?;
    }
    for seed in 1..runs {
        if run(alloc, Conditions::harsh(), seed)? != lines {
            bail!("other events with seed {seed}");
        }
    }
    println!(rt; "the same events in {runs} runs")?;
    Ok(())
}

/// Returns the arguments of the program.
fn arguments<R: Env + AllocGlobal>(rt: &R) -> io::Result<Vec<String>> {
    let arguments = env::args(rt)?.skip(1).collect(rt.alloc())?;
    Ok(arguments)
}

/// Returns how many runs are asked for: the number in the first argument, or 1.
fn runs(arguments: &[String]) -> Result<u64> {
    match arguments.first() {
        Some(text) => Ok(text.parse::<u64>()?),
        None => Ok(1),
    }
}

/// Connects a client to a server, and returns what the client notes, in the order of the lines.
fn run(alloc: Global, conditions: Conditions, seed: u64) -> Result<Vec<String>> {
    let mut network = Network::new(alloc, conditions, seed, Server { alloc });
    play(alloc, &mut network)
}

/// Connects a client, and returns what it notes, in the order of the lines.
fn play(alloc: Global, network: &mut Network<Server, Client>) -> Result<Vec<String>> {
    let peer = network.connect(Client::new(alloc))?;
    network.run_until_quiet()?;
    let Some(client) = network.client(peer) else {
        bail!("there is no client");
    };
    let mut lines = mem::replace(&mut client.lines, Vec::new(alloc));
    lines.sort()?;
    Ok(lines)
}
