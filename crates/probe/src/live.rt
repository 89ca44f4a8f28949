//! A short day of a running cluster. A call for which memory ran out is made again, so where one growth is refused the
//! day is printed as ever, but for the line that says so.
ghost use Rattle.std.specs.Prelude.{◌≡◌, ◌<◌, length};
ghost use Rattle.cluster_admin.specs.Commands.{IsCommand};
ghost use Rattle.script_lines.specs.Lines.{IsLine};

use anyhow::anyhow;
use cluster_node::{AdminCommand, AdminReply};
use cluster_world::World;
use key_slots::{NodeId, OwnerTable, Slot};
use live_cluster::{
    AdminSeat, ClientSeat, ClosedTrail, ClusterBrand, ClusterSetup, LiveCluster, Open,
};
use resp2_wire::{Reply, Request};
use script_lines::Line;
use std::alloc::Global;
use std::marker::Brand;
use std::sync::Wait;
use store_commands::Command;

/// The calls of the day, as a script says them.
const CALLS: [&str; 7] = [
    "at n0 RPUSH b x",
    "at n0 RPUSH b y",
    "setslot 3300 importing n0 at n1",
    "setslot 3300 migrating n1 at n0",
    "getkeysinslot 3300 10 at n0",
    "migrate b at n0 to n1",
    "asking n1 LLEN b",
];

/// How often a call is made that is not answered.
const TRIES: u8 = 2;

const MEMORY: &str = "out of memory";

/// What each call answers, with how many calls its seat has then, and what is left when the cluster is closed.
pub fn day<R: Wait>(rt: &R, alloc: Global) -> anyhow::Result<String> {
    let mut printed = String::new(alloc);
    for _ in 0..TRIES {
        let owners = OwnerTable::even(alloc, 3, 3)?;
        match ClusterSetup::new(alloc, owners, 7000) {
            Ok(setup) => {
                if pass::<Brand, R>(rt, alloc, setup, &mut printed)? {
                    return Ok(printed);
                }
            }
            Err(_) => report(alloc, &mut printed, "setup", MEMORY, 0)?,
        }
    }
    Err(anyhow!("no cluster was opened"))
}

fn report(
    alloc: Global,
    printed: &mut String,
    call: &str,
    answer: &str,
    calls: usize,
) -> anyhow::Result<()> {
    let line = format!(in alloc; "{call}: {answer}, {calls} calls\n")?;
    Ok(printed.push_str(line.as_str())?)
}

/// Whether the cluster was opened.
fn pass<B: ClusterBrand, R: Wait>(
    rt: &R,
    alloc: Global,
    setup: ClusterSetup,
    printed: &mut String,
) -> anyhow::Result<bool>
    requires { setup ≡ B.setup }
{
    if setup.nodes() > 8 {
        return Ok(false);
    }
    let Ok(cluster) = LiveCluster::<B>::open(alloc, setup) else {
        report(alloc, printed, "open", MEMORY, 0)?;
        return Ok(false);
    };
    report(alloc, printed, "open", "done", 0)?;
    let closed = calls(rt, alloc, cluster, printed)?;
    report_closed(alloc, closed, printed)?;
    Ok(true)
}

/// All calls, one after the other, and the end.
fn calls<B: ClusterBrand, R: Wait>(
    rt: &R,
    alloc: Global,
    cluster: LiveCluster<B>,
    printed: &mut String,
) -> anyhow::Result<ClosedTrail> {
    let Ok(mut client) = cluster.client_seat(rt) else {
        return Err(anyhow!("there is no client's seat"));
    };
    let Ok(mut admin) = cluster.admin_seat(rt) else {
        return Err(anyhow!("there is no administrator's seat"));
    };
    for call in CALLS.iter() {
        make(rt, alloc, &cluster, &mut client, &mut admin, call, printed)?;
    }
    let seats = vec![in alloc; client]?;
    Ok(cluster.close(seats, admin))
}

/// The call, and once more where it is not answered.
fn make<B: ClusterBrand, R: Wait>(
    rt: &R,
    alloc: Global,
    cluster: &LiveCluster<B>,
    client: &mut ClientSeat<B>,
    admin: &mut AdminSeat<B>,
    call: &str,
    printed: &mut String,
) -> anyhow::Result<()> {
    for _ in 0..TRIES {
        let Ok(line) = Line::read(alloc, cluster.nodes(), call.as_bytes()) else {
            return Err(anyhow!("a call was not read"));
        };
        if make_once(rt, alloc, cluster, client, admin, call, line, printed)? {
            return Ok(());
        }
    }
    Err(anyhow!("a call was never answered"))
}

/// Whether the call of this line was answered.
fn make_once<B: ClusterBrand, R: Wait>(
    rt: &R,
    alloc: Global,
    cluster: &LiveCluster<B>,
    client: &mut ClientSeat<B>,
    admin: &mut AdminSeat<B>,
    call: &str,
    line: Line,
    printed: &mut String,
) -> anyhow::Result<bool>
    requires { IsLine (length B.setup.opening.nodes) line }
{
    match line {
        Line::Call {
            node,
            asking,
            request,
        } => {
            let command = read(alloc, request)?;
            let answer = ask(rt, cluster, client, node, asking, command);
            report_reply(alloc, printed, call, answer.as_ref(), client.calls().len())?;
            Ok(answer.is_some())
        }
        Line::Admin { node, command } => {
            let answer = order(rt, cluster, admin, node, command);
            report_admin(alloc, printed, call, answer.as_ref(), admin.calls().len())?;
            Ok(answer.is_some())
        }
        Line::Step | Line::Run | Line::Honest | Line::Abandon | Line::Resume { batch: _ } => {
            Err(anyhow!("a call was not read"))
        }
    }
}

fn read(alloc: Global, request: Request) -> anyhow::Result<Command> {
    match Command::read(alloc, request) {
        Ok(command) => Ok(command),
        Err(_) => Err(anyhow!("a command was not read")),
    }
}

/// The reply of the node; none where memory ran out.
fn ask<B: ClusterBrand, R: Wait>(
    rt: &R,
    cluster: &LiveCluster<B>,
    seat: &mut ClientSeat<B>,
    node: NodeId,
    asking: bool,
    command: Command,
) -> Option<Reply> {
    if node.get() >= cluster.nodes() {
        return None;
    }
    cluster.call(rt, seat, node, asking, command, &Open).ok()
}

/// The reply of the node to its administrator; none where memory ran out.
fn order<B: ClusterBrand, R: Wait>(
    rt: &R,
    cluster: &LiveCluster<B>,
    seat: &mut AdminSeat<B>,
    node: NodeId,
    command: AdminCommand,
) -> Option<AdminReply>
    requires { IsCommand command }
{
    if node.get() >= cluster.nodes() {
        return None;
    }
    match command {
        AdminCommand::Migrate(keys, target) => cluster.migrate(rt, seat, node, keys, target).ok(),
        setting => cluster.admin(rt, seat, node, setting).ok(),
    }
}

/// Reports the reply, if there is one.
fn report_reply(
    alloc: Global,
    printed: &mut String,
    call: &str,
    answer: Option<&Reply>,
    calls: usize,
) -> anyhow::Result<()> {
    match answer {
        Some(Reply::Number(number)) => {
            let number = format!(in alloc; "{number}")?;
            report(alloc, printed, call, number.as_str(), calls)
        }
        Some(_) => report(alloc, printed, call, "no number", calls),
        None => report(alloc, printed, call, MEMORY, calls),
    }
}

/// Reports a reply to the administrator.
fn report_admin(
    alloc: Global,
    printed: &mut String,
    call: &str,
    answer: Option<&AdminReply>,
    calls: usize,
) -> anyhow::Result<()> {
    match answer {
        Some(AdminReply::Ok) => report(alloc, printed, call, "done", calls),
        Some(AdminReply::NoKey) => report(alloc, printed, call, "no key", calls),
        Some(AdminReply::Keys(keys)) => {
            let count = format!(in alloc; "{} keys", keys.len())?;
            report(alloc, printed, call, count.as_str(), calls)
        }
        Some(AdminReply::Refused(_)) => report(alloc, printed, call, "refused", calls),
        None => report(alloc, printed, call, MEMORY, calls),
    }
}

/// How many events there were, and how many keys of the slot each node holds.
fn report_closed(alloc: Global, closed: ClosedTrail, printed: &mut String) -> anyhow::Result<()> {
    report(alloc, printed, "close", "done", closed.trail.events().len())?;
    let mut nodes = closed.nodes;
    for number in 0..nodes.nodes() {
        let keys = count_at(&mut nodes, NodeId::of(number))?;
        let line = format!(in alloc; "n{number} has {keys} keys\n")?;
        printed.push_str(line.as_str())?;
    }
    Ok(())
}

fn count_at(nodes: &mut World, node: NodeId) -> anyhow::Result<usize> {
    if node.get() >= nodes.nodes() {
        return Err(anyhow!("there is no such node"));
    }
    let command = AdminCommand::KeysIn(Slot::of(3300), 10);
    Ok(count(&nodes.command(node, &command)?))
}

fn count(reply: &AdminReply) -> usize {
    match reply {
        AdminReply::Keys(keys) => keys.len(),
        _ => 0,
    }
}
