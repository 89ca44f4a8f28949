//! Servers with clients at work, all ends in one process.
ghost use Rattle.std.specs.Prelude.{◌≤◌};

use crate::followers::{begin_with_others, wait_for, work};
use crate::options::{ServedOptions, options_of};
use byte_streams::MemoryOut;
use cluster_cli::serve;
use plan_runner::{Plan, parse};
use std::alloc::Global;
use std::net::{Net, TcpListener, TcpStream};
use std::sync::Wait;
use std::sync::atomic::{AtomicU64, Ordering};
use std::test::Fail;
use std::thread;
use std::thread::Threads;

fn serve_by<R: Net<Listener = TcpListener, Stream = TcpStream> + Threads + Wait + Sync>(
    rt: &R,
    alloc: Global,
    options: &ServedOptions,
    plan: Option<Plan>,
    writer: &mut MemoryOut,
) -> u8 {
    serve(rt, alloc, &options.options, plan, writer)
}

/// One client has GET b, GET c and GET a answered, each by the node that owns the key. Then it ends its connections,
/// and so ends the servers.
#[test]
fn one_client_is_served(rt: HostRuntime) -> Result<(), Fail> {
    let alloc = rt.alloc();
    let options = options_of(17000, 4, 1);
    let mut writer = MemoryOut::new(alloc, 9_999);
    let answered = AtomicU64::new(0);
    let (status, is_answered) = thread::join(
        &rt,
        || serve_by(&rt, alloc, &options, None, &mut writer),
        || begin_with_others(&rt, alloc, 17000, &answered, 1).is_some(),
    );
    assert!(rt; is_answered);
    assert!(rt; status == 0);
    assert!(rt;
        writer.bytes.as_slice() == b"serving 3 nodes from port 17000\nclosed 3 events\n".as_slice()
    );
    Ok(())
}

/// A client of two that begin together, which then sends so many commands. How many were answered as by a store of its
/// own.
fn client_of_two<R: Net<Listener = TcpListener, Stream = TcpStream>>(
    rt: &R,
    alloc: Global,
    base_port: u16,
    answered: &AtomicU64,
    number: u64,
    commands: u64,
) -> Option<u64> {
    let follower = begin_with_others(rt, alloc, base_port, answered, 2)?;
    work(follower, number, commands)
}

/// What the servers wrote at their end, with their status, and how many commands of each client were answered.
#[derive(Drop)]
struct Served {
    status: u8,
    writer: MemoryOut,
    clients: (Option<u64>, Option<u64>),
}

/// Serves two clients that begin together, each with so many commands, while the plan runs. None where the clients were
/// not both answered at once.
fn serve_two_clients<R: Net<Listener = TcpListener, Stream = TcpStream> + Threads + Wait + Sync>(
    rt: &R,
    alloc: Global,
    base_port: u16,
    plan: Plan,
    commands: u64,
) -> Option<Served>
    requires { base_port ≤ 65528 }
{
    let answered = AtomicU64::new(0);
    let options = options_of(base_port, 6, 2);
    let mut writer = MemoryOut::new(alloc, 9_999);
    let (status, (clients, together)) = thread::join(
        rt,
        || serve_by(rt, alloc, &options, Some(plan), &mut writer),
        || thread::join(
            rt,
            || thread::join(
                rt,
                || client_of_two(rt, alloc, base_port, &answered, 1, commands),
                || client_of_two(rt, alloc, base_port, &answered, 2, commands),
            ),
            || wait_for(&answered, 2),
        ),
    );
    together.then_some(Served {
        status,
        writer,
        clients,
    })
}

/// Whether the text begins so, and continues with one of the lines.
fn goes_on(text: &[u8], beginning: &[u8], lines: [&[u8]; 2]) -> bool {
    let Some(rest) = text.strip_prefix(beginning) else {
        return false;
    };
    let [one, other] = lines;
    rest.starts_with(one) || rest.starts_with(other)
}

fn plan_of(alloc: Global, text: &[u8]) -> Result<Plan, Fail> {
    match parse(alloc, text) {
        Ok(plan) => Ok(plan),
        Err(_) => Err(Fail::from("no plan")),
    }
}

/// Two clients are served at once while a plan runs. With at most ten keys in its slot it takes 8 commands at most, and
/// 6 with none.
#[test]
fn two_clients_and_a_plan(rt: HostRuntime) -> Result<(), Fail> {
    let alloc = rt.alloc();
    let plan = plan_of(
        alloc,
        b"reshard-plan 1\nmove 3300 from n0 to n1 by 10\nend\n",
    )?;
    let served = serve_two_clients(&rt, alloc, 17010, plan, 200).ok_or("not served at once")?;
    assert!(rt; matches!(served.clients, (Some(200), Some(200))));
    assert!(rt; served.status == 0);
    assert!(rt;
        goes_on(
            served.writer.bytes.as_slice(),
            b"verified 6 commands\nserving 3 nodes from port 17010\n",
            [b"done 6 commands\nclosed ", b"done 8 commands\nclosed "],
        )
    );
    Ok(())
}

/// Clients follow a plan for 3,500 slots of node 0, slot 3300 among them, and each of their answers is that of one
/// store.
#[test]
fn clients_follow_a_plan(rt: HostRuntime) -> Result<(), Fail> {
    let alloc = rt.alloc();
    let plan = plan_of(
        alloc,
        b"reshard-plan 1\nmove 0-3499 from n0 to n1 by 10\nend\n",
    )?;
    let served = serve_two_clients(&rt, alloc, 17020, plan, 5_000).ok_or("not served at once")?;
    assert!(rt; served.status == 0);
    assert!(rt; matches!(served.clients, (Some(5_000), Some(5_000))));
    Ok(())
}
