//! What an operator's pipeline runs over and over: plans as texts, read, verified and printed; the rests of open slots;
//! both planners; and what masters tell of their slots.
ghost use Rattle.std.specs.Prelude.{◌≡◌, ◌<◌, ◌≤◌, IfOk};
ghost use Rattle.cluster_admin.specs.Commands.{IsCommand};

use crate::digest::Digest;
use crate::noting::{note_admin_reply, note_refusal};
use crate::random::Random;
use crate::surveys::Masters;
use crate::varied::Varied;
use crate::words::{put, put_number};
use byte_texts::Memory;
use cluster_admin::AdminCommand;
use cluster_world::World;
use key_slots::{NodeId, OwnerTable, Slot};
use plan_language::{Plan, parse, print};
use plan_runner::verify;
use reshard_planner::{PlannerFault, rebalance, reshard, resume};
use std::alloc::{AllocError, Global};

const NODES: u8 = 8;

const SLOTS: u64 = 16_384;

/// So many slots go round the nodes, in version 2.
const ROUND: u64 = 64;

/// So many more slots are opened, or get another owner, at each turn.
const MORE: u64 = 64;

/// The texts and the tables of all turns.
#[derive(Drop)]
struct Pipeline {
    moves: Varied,
    rounds: Varied,
    world: World,
    owners: OwnerTable,
    masters: Masters,
    random: Random,
    digest: Digest,
}

/// So many turns of the pipeline.
pub fn plan_texts(alloc: Global, turns: u64, seed: u64) -> anyhow::Result<u64> {
    let mut random = Random::new(seed);
    let (world, seat) = World::open(alloc, OwnerTable::even(alloc, NODES, 1)?, 7000)?;
    drop(seat);
    let mut pipeline = Pipeline {
        moves: moves_text(alloc, &mut random)?,
        rounds: rounds_text(alloc)?,
        world,
        owners: owners_in_turn(alloc)?,
        masters: Masters::new(alloc, &mut random)?,
        random,
        digest: Digest::new(),
    };
    pipeline.open_slots(SLOTS / 2)?;
    for _ in 0..turns {
        pipeline.turn(alloc)?;
    }
    Ok(pipeline.digest.get())
}

/// All slots, in another order for each seed, go from the first of eight nodes to others.
fn moves_text(alloc: Global, random: &mut Random) -> Result<Varied, AllocError> {
    let mut text = Varied::new(alloc);
    text.text.extend_from_slice(b"reshard-plan 1\n")?;
    let (step, first) = (random.next() | 1, random.next());
    for number in 0..SLOTS {
        let slot = step.wrapping_mul(number).wrapping_add(first) % SLOTS;
        put_commands(&mut text, slot, 0, random.below(7) + 1)?;
    }
    text.text.extend_from_slice(b"end\n")?;
    Ok(text)
}

/// In version 2: some slots go round the nodes, one move of each after the other.
fn rounds_text(alloc: Global) -> Result<Varied, AllocError> {
    let mut text = Varied::new(alloc);
    text.text.extend_from_slice(b"reshard-plan 2\n")?;
    for number in 0..SLOTS {
        let source = number / ROUND % 8;
        put_commands(&mut text, number % ROUND, source, (source + 1) % 8)?;
    }
    text.text.extend_from_slice(b"end\n")?;
    Ok(text)
}

/// The commands that move the slot from one node to the other.
fn put_commands(text: &mut Varied, slot: u64, source: u64, target: u64) -> Result<(), AllocError> {
    put_setting(&mut text.text, slot, b" importing n", source, target)?;
    put_setting(&mut text.text, slot, b" migrating n", target, source)?;
    put(&mut text.text, b"drain ", slot, b" at n")?;
    put(&mut text.text, b"", source, b" to n")?;
    put(&mut text.text, b"", target, b" by ")?;
    text.put_digits()?;
    text.text.push(b'\n')?;
    put_setting(&mut text.text, slot, b" node n", target, target)?;
    put_setting(&mut text.text, slot, b" node n", target, source)?;
    for node in 0..8 {
        if node != source && node != target {
            put_setting(&mut text.text, slot, b" node n", target, node)?;
        }
    }
    Ok(())
}

fn put_setting(
    text: &mut Vec<u8>,
    slot: u64,
    how: &[u8],
    node: u64,
    at: u64,
) -> Result<(), AllocError> {
    put(text, b"setslot ", slot, how)?;
    put_number(text, node)?;
    put(text, b" at n", at, b"\n")
}

/// Eight nodes own the slots in turn, so that each slot is a range of its own.
fn owners_in_turn(alloc: Global) -> Result<OwnerTable, Memory>
    ensures { IfOk result (λ t. t.nodes ≡ 8) }
{
    let mut owners = OwnerTable::even(alloc, NODES, 1)?;
    own_in_turn(&mut owners);
    Ok(owners)
}

fn own_in_turn(owners: &mut OwnerTable)
    ensures nodes { owners.new.nodes ≡ owners.old.nodes }
{
    for slot in 0..16_384u16 {
        let node = NodeId::of((slot % 8) as u8);
        if node.get() < owners.nodes() {
            owners.set(Slot::of(slot), node);
        }
    }
}

/// Gives some slots to others, by chance.
fn own_by_chance(owners: &mut OwnerTable, random: &mut Random)
    ensures nodes { owners.new.nodes ≡ owners.old.nodes }
{
    for turn in 0..MORE {
        let slot = Slot::of((random.next().wrapping_add(turn) % 16_384) as u16);
        let node = NodeId::of(random.below(8) as u8);
        if node.get() < owners.nodes() {
            owners.set(slot, node);
        }
    }
}

impl Pipeline {
    fn turn(&mut self, alloc: Global) -> anyhow::Result<()> {
        self.moves.vary(&mut self.random);
        self.rounds.vary(&mut self.random);
        read_verify_print(alloc, &mut self.digest, self.moves.text.as_slice())?;
        read_verify_print(alloc, &mut self.digest, self.rounds.text.as_slice())?;
        self.open_slots(MORE)?;
        self.plan_rests(alloc)?;
        self.plan_goals(alloc)?;
        self.masters.turn(alloc, &mut self.random, &mut self.digest)
    }

    /// Opens so many slots by chance, each on its way from the first node to another.
    fn open_slots(&mut self, count: u64) -> Result<(), Memory> {
        for _ in 0..count {
            let slot = Slot::of(self.random.below(16_384) as u16);
            let target = NodeId::of((self.random.below(7) + 1) as u8);
            let importing = AdminCommand::Importing(slot, NodeId::of(0));
            administer(&mut self.world, &mut self.digest, target, importing)?;
            let migrating = AdminCommand::Migrating(slot, target);
            administer(&mut self.world, &mut self.digest, NodeId::of(0), migrating)?;
        }
        Ok(())
    }

    /// The plan of the rests of all open slots, as a text, where there is one.
    fn plan_rests(&mut self, alloc: Global) -> anyhow::Result<()> {
        let batch = (self.random.below(1_000) + 1) as u16;
        let survey = self.world.survey()?;
        match resume(alloc, &survey, batch) {
            Ok(plan) => self.digest.bytes(print(alloc, &plan)?.as_slice()),
            Err(fault) => note_refusal(alloc, &mut self.digest, &fault)?,
        }
        Ok(())
    }

    /// Plans of both planners, as texts.
    fn plan_goals(&mut self, alloc: Global) -> anyhow::Result<()> {
        own_by_chance(&mut self.owners, &mut self.random);
        let batch = (self.random.below(1_000) + 1) as u16;
        for goal in 0..4u8 {
            if self.owners.nodes() == NODES {
                let plan = plan_for(alloc, goal, &self.owners, batch);
                note_plan(alloc, &mut self.digest, plan)?;
            }
        }
        Ok(())
    }
}

fn note_plan(
    alloc: Global,
    digest: &mut Digest,
    plan: Result<Plan, PlannerFault>,
) -> anyhow::Result<()> {
    match plan {
        Ok(plan) => digest.bytes(print(alloc, &plan)?.as_slice()),
        Err(fault) => note_refusal(alloc, digest, &fault)?,
    }
    Ok(())
}

fn plan_for(alloc: Global, goal: u8, owners: &OwnerTable, batch: u16) -> Result<Plan, PlannerFault>
    requires nodes { owners.now.nodes ≡ 8 }
    requires some { 1 ≤ batch }
    requires most { batch ≤ 1000 }
{
    let (n0, n1, n2, n3) = (NodeId::of(0), NodeId::of(1), NodeId::of(2), NodeId::of(3));
    let (n4, n5, n6, n7) = (NodeId::of(4), NodeId::of(5), NodeId::of(6), NodeId::of(7));
    match goal {
        0 => reshard(
            alloc,
            owners,
            &[n1, n2, n3, n4, n5, n6, n7],
            n0,
            12_000,
            batch,
        ),
        1 => reshard(alloc, owners, &[n0, n1, n2, n3], n7, 4_000, batch),
        2 => rebalance(alloc, owners, &[1, 0, 0, 0, 0, 0, 0, 0], 0, true, batch),
        _ => rebalance(alloc, owners, &[1, 2, 3, 4, 5, 6, 7, 8], 0, true, batch),
    }
}

/// Reads the plan, prints it and verifies it. Noted are how many commands it stands for, whether it is printed as it
/// was read, and why it is not legal, if it is not.
fn read_verify_print(alloc: Global, digest: &mut Digest, text: &[u8]) -> anyhow::Result<()> {
    let plan = parse(alloc, text)?;
    digest.number(u64::from(plan.expanded_len(NODES)));
    let same = print(alloc, &plan)?.as_slice() == text;
    digest.number(u64::from(same));
    let owners = OwnerTable::even(alloc, NODES, 1)?;
    match verify(plan, &owners) {
        Ok(verified) => {
            drop(verified);
            digest.number(1);
        }
        Err((plan, fault)) => {
            drop(plan);
            note_refusal(alloc, digest, &fault)?;
        }
    }
    Ok(())
}

fn administer(
    world: &mut World,
    digest: &mut Digest,
    node: NodeId,
    command: AdminCommand,
) -> Result<(), Memory>
    requires { IsCommand command }
{
    if node.get() < world.nodes() {
        note_admin_reply(digest, &world.command(node, &command)?);
    }
    Ok(())
}
