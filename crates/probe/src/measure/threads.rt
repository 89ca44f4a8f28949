//! The calls of a running cluster by several threads, and the same calls of a world by one.
ghost use Rattle.std.specs.Prelude.{◌≡◌};

use anyhow::anyhow;
use byte_texts::{MAX_BYTES, Text};
use cluster_world::{NodePort, World};
use key_slots::{NodeId, OwnerTable, slot_of};
use live_cluster::{ClientSeat, ClusterBrand, ClusterSetup, LiveCluster, Open};
use std::alloc::Global;
use std::marker::Brand;
use std::rt::Clock;
use std::sync::Wait;
use std::thread;
use std::thread::Threads;
use std::time::Instant;
use store_commands::Command;

/// How many keys each caller has, all at its own node.
const KEYS: u64 = 64;

/// Among so many names each node of eight has as many keys as a caller needs.
const NAMES: u64 = 4_096;

/// Keys that the node owns.
fn keys_of(alloc: Global, owners: &OwnerTable, node: NodeId) -> anyhow::Result<Vec<Text>> {
    let mut keys = Vec::new(alloc);
    for number in 0..NAMES {
        let name = format!(in alloc; "key:{number}")?;
        let bytes = name.as_bytes();
        if keys.len() as u64 == KEYS || bytes.len() > MAX_BYTES {
            break;
        }
        if owners.owner(slot_of(bytes)) == node {
            keys.push(Text::from_slice(alloc, bytes)?)?;
        }
    }
    Ok(keys)
}

/// The next command of a caller: every other one is a SET, and the one after it the GET of the same key.
fn command_of(alloc: Global, keys: &[Text], number: u64) -> Option<Command> {
    let key = keys
        .get((number / 2 % KEYS) as usize)?
        .try_copy(alloc)
        .ok()?;
    if number % 2 == 0 {
        let value = Text::from_slice(alloc, b"value of a key").ok()?;
        Some(Command::set(key, value))
    } else {
        Some(Command::get(key))
    }
}

/// A caller's calls at one node. Its seat comes back.
fn call_often<B: ClusterBrand, R: Wait>(
    rt: &R,
    alloc: Global,
    cluster: &LiveCluster<B>,
    mut seat: ClientSeat<B>,
    owners: &OwnerTable,
    count: u64,
) -> Option<ClientSeat<B>> {
    let node = NodeId::new(u64::from(seat.number() % owners.nodes()))?;
    if node.get() >= cluster.nodes() {
        return None;
    }
    let keys = keys_of(alloc, owners, node).ok()?;
    for number in 0..count {
        let command = command_of(alloc, keys.as_slice(), number)?;
        drop(
            cluster
                .call(rt, &mut seat, node, false, command, &Open)
                .ok()?,
        );
    }
    Some(seat)
}

/// The microseconds since then.
pub fn micros_since<R: Clock>(rt: &R, began: Instant) -> Option<u64> {
    u64::try_from(began.elapsed(rt).ok()?.as_micros()).ok()
}

/// So many client seats.
fn seats_of<B: ClusterBrand, R: Wait>(
    rt: &R,
    alloc: Global,
    cluster: &LiveCluster<B>,
    count: u64,
) -> Option<Vec<ClientSeat<B>>> {
    let mut seats = Vec::new(alloc);
    for _ in 0..count {
        seats.push(cluster.client_seat(rt).ok()?).ok()?;
    }
    Some(seats)
}

/// Makes so many calls by each seat, with a thread for each, and returns the microseconds that all take. The seats come
/// back.
fn call_all<B: ClusterBrand + Send + Sync, R: Threads + Wait + Clock + Sync>(
    rt: &R,
    alloc: Global,
    cluster: &LiveCluster<B>,
    seats: Vec<ClientSeat<B>>,
    owners: &OwnerTable,
    count: u64,
) -> Option<(Vec<ClientSeat<B>>, u64)> {
    let began = Instant::now(rt).ok()?;
    let returned = thread::map_vec(
        rt,
        seats,
        &|seat| call_often(rt, alloc, cluster, seat, owners, count),
    )
    .ok()?;
    let micros = micros_since(rt, began)?;
    let mut back = Vec::new(alloc);
    for seat in returned {
        back.push(seat?).ok()?;
    }
    Some((back, micros))
}

/// The microseconds that so many threads take for so many calls each, if all calls stand on the trail.
fn calls_of<B: ClusterBrand + Send + Sync, R: Threads + Wait + Clock + Sync>(
    rt: &R,
    alloc: Global,
    setup: ClusterSetup,
    owners: &OwnerTable,
    threads: u64,
    count: u64,
) -> Option<u64>
    requires { setup ≡ B.setup }
{
    if setup.nodes() > 8 {
        return None;
    }
    let cluster = LiveCluster::<B>::open(alloc, setup).ok()?;
    let seats = seats_of(rt, alloc, &cluster, threads)?;
    let (seats, micros) = call_all(rt, alloc, &cluster, seats, owners, count)?;
    let admin = cluster.admin_seat(rt).ok()?;
    let events = cluster.close(seats, admin).trail.events().len() as u64;
    if events == threads.saturating_mul(count) {
        Some(micros)
    } else {
        None
    }
}

fn owners_of(alloc: Global, nodes: usize) -> anyhow::Result<OwnerTable> {
    if nodes == 0 || nodes > 8 {
        return Err(anyhow!("a cluster has one to eight nodes"));
    }
    Ok(OwnerTable::even(alloc, nodes as u8, nodes as u8)?)
}

/// Opens the cluster, and lets so many threads call it.
fn calls_at<R: Threads + Wait + Clock + Sync>(
    rt: &R,
    alloc: Global,
    owners: &OwnerTable,
    threads: u64,
    count: u64,
) -> Option<u64> {
    let setup = ClusterSetup::new(alloc, owners.try_copy().ok()?, 7000).ok()?;
    calls_of::<Brand, R>(rt, alloc, setup, owners, threads, count)
}

/// So many threads call the nodes of a running cluster in turn, each its own node so often. Gives the microseconds.
pub fn calls<R: Threads + Wait + Clock + Sync>(
    rt: &R,
    alloc: Global,
    threads: usize,
    nodes: usize,
    count: usize,
) -> anyhow::Result<u64> {
    let owners = owners_of(alloc, nodes)?;
    match calls_at(rt, alloc, &owners, threads as u64, count as u64) {
        Some(micros) => Ok(micros),
        None => Err(anyhow!("the calls did not come to their end")),
    }
}

/// A caller's calls at one node of a world.
fn send_often(
    alloc: Global,
    world: &mut World,
    owners: &OwnerTable,
    caller: u64,
    count: u64,
) -> anyhow::Result<()> {
    let Some(node) = NodeId::new(caller % u64::from(owners.nodes())) else {
        return Err(anyhow!("a cluster has at most eight nodes"));
    };
    let keys = keys_of(alloc, owners, node)?;
    for number in 0..count {
        if node.get() >= world.nodes() {
            break;
        }
        let Some(command) = command_of(alloc, keys.as_slice(), number) else {
            return Err(anyhow!("a node has too few of the keys"));
        };
        drop(world.send(node, false, &command)?);
    }
    Ok(())
}

/// The calls of so many callers, one caller after the other, by one thread and without locks. Gives the microseconds.
pub fn world_calls<R: Clock>(
    rt: &R,
    alloc: Global,
    callers: usize,
    nodes: usize,
    count: usize,
) -> anyhow::Result<u64> {
    let owners = owners_of(alloc, nodes)?;
    let (mut world, seat) = World::open(alloc, owners.try_copy()?, 7000)?;
    drop(seat);
    let began = Instant::now(rt)?;
    for caller in 0..callers as u64 {
        send_often(alloc, &mut world, &owners, caller, count as u64)?;
    }
    match micros_since(rt, began) {
        Some(micros) => Ok(micros),
        None => Err(anyhow!("the clock was not read")),
    }
}
