//! Random schedules of two ends over a network in memory: each end does what its seed chooses, and what the other end
//! hears is compared with it.
#![tactic(auto)]

mod act;
mod actor;
mod compare;
mod journal;

use crate::actor::Actor;
use crate::compare::{check_end, compare};
use anyhow::{Result, bail};
use std::alloc::Global;
use std::env::{self, Env};
use std::io;
use test_network::conditions::Conditions;
use test_network::network::Network;
use test_network::random::Random;
use vesgrauf::config::Config;

fn main(rt: HostRuntime) -> Result<()> {
    let alloc = rt.alloc();
    let (first, last) = seeds(arguments(&rt)?.as_slice())?;
    for seed in first..=last {
        if let Err(error) = run(alloc, seed) {
            bail!("schedule {seed}: {error}");
        }
    }
    println!(rt; "schedules {first} to {last}: each end heard what the other did")?;
    Ok(())
}

/// Returns the arguments of the program.
fn arguments<R: Env + AllocGlobal>(rt: &R) -> io::Result<Vec<String>> {
    let arguments = env::args(rt)?.skip(1).collect(rt.alloc())?;
    Ok(arguments)
}

/// Returns the first and the last seed: from 1 to the number in the first argument, or the one in the second.
fn seeds(arguments: &[String]) -> Result<(u64, u64)> {
    match arguments {
        [] => Ok((1, 1)),
        [last] => Ok((1, last.parse::<u64>()?)),
        [first, last, ..] => Ok((first.parse::<u64>()?, last.parse::<u64>()?)),
    }
}

/// Returns a network of a seed.
fn conditions(random: &mut Random) -> Conditions {
    let window = random.below(20_000).saturating_add(2_000);
    Conditions {
        max_piece: random.below(3_000).saturating_add(1),
        delays: random.below(3).saturating_add(2),
        losses: random.below(4),
        stream_window: window,
        connection_window: random.below(30_000).saturating_add(window),
        max_streams: (random.below(20) as u64).saturating_add(4),
        max_datagram: 1_200,
        acks: random.one_in(2),
    }
}

/// Returns a configuration of a seed.
fn configure(mut config: Config, random: &mut Random, acks: bool) -> Config {
    config.send_buffer = random.below(5_000).saturating_add(100);
    config.keep_until_acked = acks && random.one_in(2);
    config.bound_by_acked = acks && random.one_in(2);
    if random.one_in(3) {
        config.qpack_max_table_capacity = 0;
        config.qpack_blocked_streams = 0;
    } else if random.one_in(2) {
        config.qpack_blocked_streams = 1;
    }
    if random.one_in(3) {
        config.encoder_table_capacity = 0;
    }
    config.max_resets = 1_000;
    config
}

/// Runs the schedule of a seed, and compares what its ends did and heard.
fn run(alloc: Global, seed: u64) -> Result<()> {
    let mut random = Random::new(seed.wrapping_mul(7));
    let conditions = conditions(&mut random);
    let client = configure(Config::client(), &mut random, conditions.acks);
    let server = configure(Config::server(), &mut random, conditions.acks);
    let number = seed.wrapping_mul(3);
    let mut network = Network::new(
        alloc,
        conditions,
        number,
        Actor::new(alloc, false, number.wrapping_add(1)),
    );
    let actor = Actor::new(alloc, true, number.wrapping_add(2));
    play(&mut network, actor, client, server)
}

/// Connects a client, lets both ends do what they have to do, and then shut down.
fn play(
    network: &mut Network<Actor, Actor>,
    actor: Actor,
    client: Config,
    server: Config,
) -> Result<()> {
    let peer = network.connect_with(actor, client, server)?;
    network.run_until_quiet()?;
    finish(network, peer)?;
    network.run_until_quiet()?;
    check(network, peer)
}

/// Lets both ends shut down.
fn finish(network: &mut Network<Actor, Actor>, peer: usize) -> Result<()> {
    network.server.leave();
    let Some(client) = network.client(peer) else {
        bail!("there is no client");
    };
    client.leave();
    Ok(())
}

/// Compares both directions, and checks that nothing is left.
fn check(network: &mut Network<Actor, Actor>, peer: usize) -> Result<()> {
    let mut left = [0, 0];
    if let Some(connection) = network.client_connection(peer) {
        left[0] = connection.stats().streams;
    }
    if let Some(connection) = network.server_connection(peer) {
        left[1] = connection.stats().streams;
    }
    let [at_client, at_server] = left;
    let Some(client) = network.client(peer) else {
        bail!("there is no client");
    };
    check_actor("client", client, at_client)?;
    let journal = client.take_journal();
    let server = &network.server;
    check_actor("server", server, at_server)?;
    compare("client", &journal, &server.journal)?;
    compare("server", &server.journal, &journal)
}

/// Checks that nothing is left at an end, which has so many streams.
fn check_actor(side: &str, actor: &Actor, streams: usize) -> Result<()> {
    if actor.is_idle {
        check_end(side, streams)?;
    }
    actor.check()
}
