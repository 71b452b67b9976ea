//! A chat over WebTransport: a server, and clients on several connections, over a network in memory.
#![tactic(auto)]

mod guests;
mod parts;
mod room;

use crate::guests::{Guests, Todo};
use crate::parts::{AFTERWARDS, ARRIVING, LEAVING, ONE_MORE, TALKING};
use crate::room::Room;
use anyhow::{Result, bail};
use std::alloc::Global;
use test_network::conditions::Conditions;
use test_network::network::Network;

/// A network with larger pieces and windows than the harshest.
fn conditions() -> Conditions {
    Conditions {
        max_piece: 5_000,
        stream_window: 30_000,
        connection_window: 200_000,
        ..Conditions::harsh()
    }
}

fn main(rt: HostRuntime) -> Result<()> {
    let alloc = rt.alloc();
    let lines = evening(alloc, Conditions::ideal(), 0)?;
    for line in &lines {
        println!(rt; "{line}")?;
    }
    for seed in 1..RUNS {
        if evening(alloc, conditions(), seed)? != lines {
            bail!("another evening with seed {seed}");
        }
    }
    println!(rt; "{RUNS} evenings")?;
    Ok(())
}

/// How many evenings there are.
const RUNS: u64 = 20;

/// How many connections there are.
const CONNECTIONS: usize = 3;

/// The tick at which members that did not leave are dismissed, once the room closes.
const LAST_TICK: u32 = 10;

/// Spends an evening in the room. Returns what happened, in the order of the lines in each part.
fn evening(alloc: Global, conditions: Conditions, seed: u64) -> Result<Vec<String>> {
    let mut network = Network::new(alloc, conditions, seed, Room::new(alloc));
    let mut lines = Vec::new(alloc);
    for _connection in 0..CONNECTIONS {
        network.connect(Guests::new(alloc))?;
    }
    play(alloc, &mut network, "arriving", &ARRIVING, &mut lines)?;
    play(alloc, &mut network, "one more", &ONE_MORE, &mut lines)?;
    play(alloc, &mut network, "talking", &TALKING, &mut lines)?;
    wind_down(&mut network, 0)?;
    play(alloc, &mut network, "leaving", &LEAVING, &mut lines)?;
    wind_down(&mut network, 1)?;
    play(alloc, &mut network, "closing", &[], &mut lines)?;
    play(alloc, &mut network, "afterwards", &AFTERWARDS, &mut lines)?;
    Ok(lines)
}

/// Takes a step to the end of each connection: the room closes.
fn wind_down(network: &mut Network<Room, Guests>, tick: u32) -> Result<()> {
    for peer in 0..CONNECTIONS {
        if let Some(on) = network.server_connection(peer) {
            on.wind_down(tick, LAST_TICK)?;
        }
    }
    Ok(())
}

/// Lets the guests do this, each on a connection, and adds what happened until all is quiet.
fn play(
    alloc: Global,
    network: &mut Network<Room, Guests>,
    title: &str,
    todo: &[(usize, Todo)],
    lines: &mut Vec<String>,
) -> Result<()> {
    for (peer, todo) in todo {
        let Some(guests) = network.client(*peer) else {
            bail!("there is no connection {peer}");
        };
        guests.todo.push_back(*todo)?;
    }
    network.run_until_quiet()?;
    let mut log = Vec::new(alloc);
    log.append(&mut network.server.log)?;
    for peer in 0..CONNECTIONS {
        if let Some(guests) = network.client(peer) {
            log.append(&mut guests.log)?;
        }
    }
    log.sort()?;
    lines.push(format!(in alloc; "- {title}")?)?;
    lines.append(&mut log)?;
    Ok(())
}
