//! Threads at a running cluster, each at a node of its own with keys of its own, and the close and the search of the
//! trail after them.
ghost use Rattle.std.specs.Prelude.{◌≡◌};

use crate::digest::Digest;
use crate::filler::Filler;
use crate::noting::note_threads_trail;
use crate::random::Random;
use crate::users::put_key;
use anyhow::anyhow;
use byte_texts::{MAX_BYTES, Text};
use cluster_world::first_dishonest;
use key_slots::{NodeId, OwnerTable, slot_of};
use live_cluster::{ClientSeat, ClusterBrand, ClusterSetup, LiveCluster, Open};
use std::alloc::Global;
use std::marker::Brand;
use std::sync::Wait;
use std::thread;
use std::thread::Threads;
use store_commands::Command;

/// How many keys each thread has.
const KEYS: usize = 1_024;

/// How many nodes there are, and how many threads call them.
const CLUSTERS: [(u8, u64); 6] = [(1, 1), (1, 2), (1, 4), (8, 1), (8, 2), (8, 4)];

/// A thread's seat when it is done, and the digest of the replies.
#[derive(Drop)]
struct Caller<B: ClusterBrand> {
    seat: ClientSeat<B>,
    digest: u64,
}

/// So many calls by all threads of each cluster.
pub fn calls<R: Threads + Wait + Sync>(
    rt: &R,
    alloc: Global,
    count: u64,
    seed: u64,
) -> anyhow::Result<u64> {
    let mut digest = Digest::new();
    for (place, (nodes, threads)) in CLUSTERS.iter().enumerate() {
        let owners = owners_of(alloc, *nodes)?;
        let seed = seed.wrapping_mul(64).wrapping_add(place as u64);
        match calls_at(
            rt,
            alloc,
            &owners,
            *threads,
            count / (*threads).max(1),
            seed,
        ) {
            Some(number) => digest.number(number),
            None => return Err(anyhow!("the calls did not come to their end")),
        }
    }
    Ok(digest.get())
}

fn owners_of(alloc: Global, nodes: u8) -> anyhow::Result<OwnerTable> {
    if nodes == 0 || nodes > 8 {
        return Err(anyhow!("a cluster has one to eight nodes"));
    }
    Ok(OwnerTable::even(alloc, nodes, nodes)?)
}

/// Opens the cluster, and lets so many threads call it.
fn calls_at<R: Threads + Wait + Sync>(
    rt: &R,
    alloc: Global,
    owners: &OwnerTable,
    threads: u64,
    count: u64,
    seed: u64,
) -> Option<u64> {
    let setup = ClusterSetup::new(alloc, owners.try_copy().ok()?, 7000).ok()?;
    calls_of::<Brand, R>(rt, alloc, setup, owners, threads, count, seed)
}

/// The digest of all replies and of all events of the trail, where these are honest.
fn calls_of<B: ClusterBrand + Send + Sync, R: Threads + Wait + Sync>(
    rt: &R,
    alloc: Global,
    setup: ClusterSetup,
    owners: &OwnerTable,
    threads: u64,
    count: u64,
    seed: u64,
) -> Option<u64>
    requires { setup ≡ B.setup }
{
    if setup.nodes() > 8 {
        return None;
    }
    let cluster = LiveCluster::<B>::open(alloc, setup).ok()?;
    let seats = seats_of(rt, alloc, &cluster, threads)?;
    let mut digest = Digest::new();
    let seats = call_all(rt, alloc, &cluster, seats, owners, count, seed, &mut digest)?;
    let admin = cluster.admin_seat(rt).ok()?;
    let closed = cluster.close(seats, admin);
    note_threads_trail(alloc, &mut digest, &closed.trail).ok()?;
    match first_dishonest(alloc, &closed.trail) {
        Ok(None) => Some(digest.get()),
        _ => None,
    }
}

/// So many client seats.
fn seats_of<B: ClusterBrand, R: Wait>(
    rt: &R,
    alloc: Global,
    cluster: &LiveCluster<B>,
    count: u64,
) -> Option<Vec<ClientSeat<B>>> {
    let mut seats = Vec::new(alloc);
    for _ in 0..count {
        seats.push(cluster.client_seat(rt).ok()?).ok()?;
    }
    Some(seats)
}

/// Makes so many calls by each seat, with a thread for each. The seats come back.
fn call_all<B: ClusterBrand + Send + Sync, R: Threads + Wait + Sync>(
    rt: &R,
    alloc: Global,
    cluster: &LiveCluster<B>,
    seats: Vec<ClientSeat<B>>,
    owners: &OwnerTable,
    count: u64,
    seed: u64,
    digest: &mut Digest,
) -> Option<Vec<ClientSeat<B>>> {
    let returned = thread::map_vec(
        rt,
        seats,
        &|seat| call_often(rt, alloc, cluster, seat, owners, count, seed),
    )
    .ok()?;
    let mut back = Vec::new(alloc);
    for caller in returned {
        let Caller {
            seat,
            digest: of_caller,
        } = caller?;
        digest.number(of_caller);
        back.push(seat).ok()?;
    }
    Some(back)
}

/// A caller's calls at one node. Its seat comes back.
fn call_often<B: ClusterBrand, R: Wait>(
    rt: &R,
    alloc: Global,
    cluster: &LiveCluster<B>,
    mut seat: ClientSeat<B>,
    owners: &OwnerTable,
    count: u64,
    seed: u64,
) -> Option<Caller<B>> {
    let node = NodeId::new(u64::from(seat.number() % owners.nodes()))?;
    if node.get() >= cluster.nodes() {
        return None;
    }
    let mut random = Random::new(seed.wrapping_add(u64::from(seat.number()) << 40));
    let filler = Filler::new(alloc, &mut random).ok()?;
    let keys = keys_of(alloc, owners, node, u64::from(seat.number()))?;
    let mut digest = Digest::new();
    for _ in 0..count {
        let command = command_of(alloc, keys.as_slice(), &mut random, &filler)?;
        let reply = cluster
            .call(rt, &mut seat, node, false, command, &Open)
            .ok()?;
        digest.reply(&reply);
    }
    Some(Caller {
        seat,
        digest: digest.get(),
    })
}

/// Keys that the node owns.
fn keys_of(alloc: Global, owners: &OwnerTable, node: NodeId, caller: u64) -> Option<Vec<Text>> {
    let mut keys = Vec::new(alloc);
    for number in 0..16 * KEYS as u64 {
        let mut key = Vec::new(alloc);
        put_key(
            &mut key,
            number.wrapping_mul(8).wrapping_add(caller),
            b"name",
        )
        .ok()?;
        let bytes = key.as_slice();
        if keys.len() == KEYS || bytes.len() > MAX_BYTES {
            break;
        }
        if owners.owner(slot_of(bytes)) == node {
            keys.push(Text::from_slice(alloc, bytes).ok()?).ok()?;
        }
    }
    Some(keys)
}

/// The next command of a caller.
fn command_of(
    alloc: Global,
    keys: &[Text],
    random: &mut Random,
    filler: &Filler,
) -> Option<Command> {
    let key = keys.get((random.skewed() as usize) % keys.len().max(1))?;
    let key = key.try_copy(alloc).ok()?;
    match random.below(10) {
        0..=5 => Some(Command::get(key)),
        6..=8 => {
            let value = filler.usual(random);
            if value.len() > MAX_BYTES {
                return None;
            }
            Some(Command::set(key, Text::from_slice(alloc, value).ok()?))
        }
        _ => Command::delete(alloc, &key).ok(),
    }
}
