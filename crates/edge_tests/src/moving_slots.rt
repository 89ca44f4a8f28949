//! Tests of a client over a world while a plan moves the slot of the client's key, in every order of their turns.
ghost use Rattle.std.specs.Prelude.{◌≡◌, ◌≤◌, length};

use crate::plans::{BACK, THERE, finish, plan_turn, start};
use byte_texts::Text;
use cluster_world::{World, WorldSeat};
use key_slots::{NodeId, OwnerTable, Slot};
use plan_runner::{RunningPlan, Taken};
use redirect_client::{Client, ClientFault};
use resp2_wire::Reply;
use std::alloc::Global;
use std::process::Abort;
use std::test::Fail;
use store_commands::Command;

/// A cluster whose slot 3300 moves to and fro, with a client that counts at its key `b`.
#[derive(Drop)]
struct Moving {
    owners: OwnerTable,
    world: World,
    client: Client,
    increment: Command,
    count: i64,
}

/// Whether the outcome is this number.
fn is_number(outcome: &Result<Reply, ClientFault>, wanted: i64) -> bool {
    matches!(outcome, Ok(Reply::Number(number)) if *number == wanted)
}

impl Moving {
    /// The client's turn: it counts, and is answered by the next number, so it is served once.
    fn count_on(&mut self, rt: &impl Abort)
        requires { self.old.client.owners.nodes ≤ length self.old.world.nodes }
        ensures known { self.new.client.owners.nodes ≤ length self.new.world.nodes }
        ensures count { length self.new.world.nodes ≡ length self.old.world.nodes }
    {
        self.count = self.count.wrapping_add(1);
        let wanted = self.count;
        let outcome = self.client.execute(&mut self.world, &self.increment);
        assert!(rt; is_number(&outcome, wanted));
        drop(outcome);
    }

    /// Twelve turns, of the client where the order's binary digit is 1 and of the plan where it is 0, and then the rest
    /// of the plan.
    fn take_turns(
        &mut self,
        rt: &impl Abort,
        plan: RunningPlan<WorldSeat>,
        order: u32,
    ) -> Option<WorldSeat>
        requires plan { length self.old.world.nodes ≡ plan.progress.nodes }
        requires known { self.old.client.owners.nodes ≤ length self.old.world.nodes }
        ensures known { self.new.client.owners.nodes ≤ length self.new.world.nodes }
    {
        let mut taken = Taken::Running(plan);
        let mut turns = order;
        for _ in 0..12 {
            if turns % 2 == 0 {
                taken = plan_turn(taken, &mut self.world);
            } else {
                self.count_on(rt);
            }
            turns /= 2;
        }
        finish(taken, &mut self.world)
    }

    /// A plan that moves the slot to node 1, or back to node 0, while the client counts.
    fn play(
        &mut self,
        rt: &impl Abort,
        alloc: Global,
        seat: WorldSeat,
        order: u32,
    ) -> Result<WorldSeat, Fail>
        requires { self.old.client.owners.nodes ≤ length self.old.world.nodes }
        ensures { self.new.client.owners.nodes ≤ length self.new.world.nodes }
    {
        let slot = Slot::of(3300);
        let (text, target) = if self.owners.owner(slot).get() == 0 {
            (THERE, NodeId::of(1))
        } else {
            (BACK, NodeId::of(0))
        };
        let Some(plan) = start(alloc, text, &self.owners, &self.world, seat) else {
            return Err(Fail::from("the plan does not start"));
        };
        let ended = self.take_turns(rt, plan, order);
        assert!(rt; target.get() < self.owners.nodes());
        self.owners.set(slot, target);
        match ended {
            Some(seat) => Ok(seat),
            None => Err(Fail::from("the plan stopped")),
        }
    }
}

/// Each order of twelve turns. From one order to the next the slot goes there or comes back.
#[test]
fn a_client_counts_while_its_slot_moves(rt: HostRuntime) -> Result<(), Fail> {
    let alloc = rt.alloc();
    let owners = OwnerTable::even(alloc, 3, 3)?;
    let client = Client::new(owners.try_copy()?, 7000);
    let (world, seat) = World::open(alloc, owners.try_copy()?, 7000)?;
    assert!(rt; world.nodes() == owners.nodes());
    let mut moving = Moving {
        owners,
        world,
        client,
        increment: Command::increment(Text::from_slice(alloc, b"b")?),
        count: 0,
    };
    let mut seat = seat;
    for order in 0..4096 {
        seat = moving.play(&rt, alloc, seat, order)?;
    }
    drop(seat);
    Ok(())
}
