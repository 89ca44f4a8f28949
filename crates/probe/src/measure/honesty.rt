//! The search of a trail for an event that is not honest.
ghost use Rattle.std.specs.Prelude.{◌≡◌};

use crate::measure::threads::micros_since;
use anyhow::anyhow;
use byte_texts::Text;
use cluster_node::AdminCommand;
use cluster_world::first_dishonest;
use key_slots::{NodeId, OwnerTable, Slot};
use live_cluster::{AdminSeat, ClientSeat, ClusterBrand, ClusterSetup, LiveCluster, Open};
use std::alloc::Global;
use std::marker::Brand;
use std::rt::Clock;
use std::sync::Wait;
use std::time::Instant;
use store_commands::Command;

/// The client asks for so many keys in turn.
const KEYS: u64 = 1_000;

/// The slot of the keys goes from node 0 to node 1.
fn open_slot<B: ClusterBrand, R: Wait>(
    rt: &R,
    cluster: &LiveCluster<B>,
    admin: &mut AdminSeat<B>,
) -> Option<()> {
    let (slot, source, target) = (Slot::of(3300), NodeId::of(0), NodeId::of(1));
    if cluster.nodes() < 2 {
        return None;
    }
    let importing = AdminCommand::Importing(slot, source);
    drop(cluster.admin(rt, admin, target, importing).ok()?);
    let migrating = AdminCommand::Migrating(slot, target);
    drop(cluster.admin(rt, admin, source, migrating).ok()?);
    Some(())
}

/// GET of the key of this number, which no node has.
fn command_of(alloc: Global, number: u64) -> Option<Command> {
    let key = format!(in alloc; "{{b}}{}", number % KEYS).ok()?;
    if key.as_bytes().len() > 100 {
        return None;
    }
    Some(Command::get(Text::from_slice(alloc, key.as_bytes()).ok()?))
}

/// So many calls by the seat: of each two the source answers the first with an ASK, and the second follows it.
fn ask_often<B: ClusterBrand, R: Wait>(
    rt: &R,
    alloc: Global,
    cluster: &LiveCluster<B>,
    seat: &mut ClientSeat<B>,
    count: u64,
) -> Option<()> {
    for number in 0..count {
        let asking = number % 2 == 1;
        let node = if asking { NodeId::of(1) } else { NodeId::of(0) };
        if node.get() < cluster.nodes() {
            let command = command_of(alloc, number / 2)?;
            drop(cluster.call(rt, seat, node, asking, command, &Open).ok()?);
        }
    }
    Some(())
}

/// The microseconds of the search, if the trail is honest.
fn search_of<B: ClusterBrand, R: Wait + Clock>(
    rt: &R,
    alloc: Global,
    setup: ClusterSetup,
    count: u64,
) -> Option<u64>
    requires { setup ≡ B.setup }
{
    if setup.nodes() > 8 {
        return None;
    }
    let cluster = LiveCluster::<B>::open(alloc, setup).ok()?;
    let mut admin = cluster.admin_seat(rt).ok()?;
    let mut client = cluster.client_seat(rt).ok()?;
    open_slot(rt, &cluster, &mut admin)?;
    ask_often(rt, alloc, &cluster, &mut client, count)?;
    let closed = cluster.close(vec![in alloc; client].ok()?, admin);
    let began = Instant::now(rt).ok()?;
    match first_dishonest(alloc, &closed.trail) {
        Ok(None) => micros_since(rt, began),
        _ => None,
    }
}

fn search_at<R: Wait + Clock>(rt: &R, alloc: Global, count: u64) -> Option<u64> {
    let owners = OwnerTable::even(alloc, 3, 3).ok()?;
    let setup = ClusterSetup::new(alloc, owners, 7000).ok()?;
    search_of::<Brand, R>(rt, alloc, setup, count)
}

/// A client makes so many calls while a slot is on its way. Gives the microseconds that the search of their trail
/// takes.
pub fn search<R: Wait + Clock>(rt: &R, alloc: Global, count: usize) -> anyhow::Result<u64> {
    match search_at(rt, alloc, count as u64) {
        Some(micros) => Ok(micros),
        None => Err(anyhow!("the search did not come to its end")),
    }
}
