//! Clients at work, each by a thread of its own, and the day that they pass.
ghost use Rattle.std.specs.Prelude.{◌≤◌, length, IfSome};
ghost use Rattle.cluster_world.specs.Trails.{IsRunFromOpening};

use crate::clusters::call_at;
use crate::commands::{CommandMix, set_b};
use crate::plans::{Left, Seen, seen_by};
use key_slots::OwnerTable;
use live_cluster::{
    AdminSeat, ClientSeat, ClosedTrail, ClusterBrand, LiveClient, LiveCluster, Open,
};
use redirect_client::Client;
use std::alloc::Global;
use std::sync::Wait;
use std::sync::atomic::{AtomicU64, Ordering};
use std::thread;
use std::thread::Threads;

/// What each client sends: so many commands of a mix.
#[derive(Clone, Copy)]
pub(crate) struct Orders {
    pub(crate) mix: CommandMix,
    pub(crate) rounds: u64,
}

/// A client that follows redirections sends its commands, and counts those that are answered. Its seat comes back where
/// all are.
fn client_at_work<B: ClusterBrand, R: Wait>(
    rt: &R,
    alloc: Global,
    cluster: &LiveCluster<B>,
    seat: ClientSeat<B>,
    owners: OwnerTable,
    orders: Orders,
    answered: &AtomicU64,
) -> Option<ClientSeat<B>> {
    if owners.nodes() > cluster.nodes() {
        return None;
    }
    let number = seat.number();
    let first = u64::from(number) * 31;
    let mut port = LiveClient::new(rt, alloc, cluster, seat);
    let mut client = Client::new(owners, 7000);
    for round in 0..orders.rounds {
        let command = orders
            .mix
            .command(alloc, number, round.wrapping_add(first))?;
        if client.execute(&mut port, &command).is_err() {
            return None;
        }
        answered.fetch_add(1, Ordering::SeqCst);
    }
    Some(port.into_seat())
}

/// Each client by a thread of its own.
pub(crate) fn all_at_work<B: ClusterBrand + Send + Sync, R: Threads + Wait + Sync>(
    rt: &R,
    alloc: Global,
    cluster: &LiveCluster<B>,
    seats: Vec<ClientSeat<B>>,
    owners: &OwnerTable,
    orders: Orders,
    answered: &AtomicU64,
) -> Option<Vec<Option<ClientSeat<B>>>> {
    thread::map_vec(
        rt,
        seats,
        &|seat| client_at_work(
            rt,
            alloc,
            cluster,
            seat,
            owners.try_copy().ok()?,
            orders,
            answered,
        ),
    )
    .ok()
}

/// The clients' seats, each of which has sent SET b at node 0.
pub(crate) fn seats_of<B: ClusterBrand, R: Wait>(
    rt: &R,
    alloc: Global,
    cluster: &LiveCluster<B>,
    clients: u64,
) -> Option<Vec<ClientSeat<B>>> {
    let mut seats = Vec::new(alloc);
    for _ in 0..clients {
        let seat = cluster.client_seat(rt).ok()?;
        let seat = call_at(rt, cluster, seat, (0, false), set_b(alloc), &Open);
        seats.push(seat).ok()?;
    }
    Some(seats)
}

/// What a day left, how its plan was left, what the administrator's seat had done, and how many calls all seats had.
#[derive(Drop)]
pub(crate) struct Day {
    pub(crate) closed: ClosedTrail,
    pub(crate) left: Left,
    pub(crate) seen: Seen,
    pub(crate) calls: usize,
}

/// Closes with the seats that came back.
pub(crate) fn close<B: ClusterBrand>(
    alloc: Global,
    cluster: LiveCluster<B>,
    returned: Vec<Option<ClientSeat<B>>>,
    admin: AdminSeat<B>,
    left: Left,
) -> Option<Day>
    ensures { IfSome result (λ d. IsRunFromOpening d.closed.trail) }
{
    let mut seats = Vec::new(alloc);
    let seen = seen_by(&admin);
    let mut calls = admin.calls().len();
    for seat in returned {
        let seat = seat?;
        calls = calls.wrapping_add(seat.calls().len());
        seats.push(seat).ok()?;
    }
    Some(Day {
        closed: cluster.close(seats, admin),
        left,
        seen,
        calls,
    })
}
