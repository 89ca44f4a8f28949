//! Plans that are explained and drawn at nodes that the program itself serves: the survey, the counts and the pages,
//! where memory is ample.
use crate::options::{ServedOptions, previewed_options};
use crate::questions::connect;
use byte_streams::{MemoryIn, MemoryOut};
use cluster_cli::{run_words, serve};
use std::alloc::{AllocError, Global};
use std::env::Env;
use std::fs::{File, Files};
use std::net::{Net, TcpListener, TcpStream};
use std::sync::Wait;
use std::test::Fail;
use std::thread;
use std::thread::Threads;
use std::time::Clock;

const PLAN: &[u8] = b"reshard-plan 1\nmove 0-9 from n0 to n1 by 10\nend\n";

/// Commands, and how that begins which each prints. A command connects twice to the node that it names and once to the
/// other one, so both accept as many connections.
const PREVIEWS: [(&[&str], &[u8]); 4] = [
    (
        &["explain", "--cluster", "127.0.0.1:17070"],
        b"verified 50 commands\n",
    ),
    (
        &["explain", "--json", "--cluster", "127.0.0.1:17071"],
        b"{\"",
    ),
    (&["draw", "--cluster", "127.0.0.1:17070"], b"<svg "),
    (&["draw", "--now", "--cluster", "127.0.0.1:17071"], b"<svg "),
];

fn serve_by<R: Net<Listener = TcpListener, Stream = TcpStream> + Threads + Wait + Sync>(
    rt: &R,
    alloc: Global,
    options: &ServedOptions,
    writer: &mut MemoryOut,
) -> u8 {
    serve(rt, alloc, &options.options, None, writer)
}

/// Whether the words give the status 0, and a text that begins so.
fn is_printed<
    R: Net<Listener = TcpListener, Stream = TcpStream>
        + Threads
        + Wait
        + Sync
        + Clock
        + Files<File = File>
        + Env
        + AllocGlobal,
>(rt: &R, alloc: Global, words: &[&str], beginning: &[u8]) -> Result<bool, AllocError> {
    let mut given = Vec::new(alloc);
    for word in words {
        given.push(String::from_str(alloc, word)?)?;
    }
    let mut reader = MemoryIn::new(PLAN, false);
    let mut writer = MemoryOut::new(alloc, 999_999);
    let mut errors = MemoryOut::new(alloc, 9_999);
    let status = run_words(
        rt,
        alloc,
        given.as_slice(),
        &mut reader,
        &mut writer,
        &mut errors,
    );
    Ok(status == 0 && writer.bytes.as_slice().starts_with(beginning))
}

/// Whether each of the commands prints what it is to, once the nodes listen.
fn printed<
    R: Net<Listener = TcpListener, Stream = TcpStream>
        + Threads
        + Wait
        + Sync
        + Clock
        + Files<File = File>
        + Env
        + AllocGlobal,
>(rt: &R, alloc: Global) -> Option<bool> {
    drop(connect(rt, 17070)?);
    drop(connect(rt, 17071)?);
    let mut all = true;
    for (words, beginning) in PREVIEWS {
        all &= is_printed(rt, alloc, words, beginning).ok()?;
    }
    Some(all)
}

#[test]
fn plans_are_shown_at_nodes_that_are_served(rt: HostRuntime) -> Result<(), Fail> {
    let alloc = rt.alloc();
    let options = previewed_options(17070);
    let mut writer = MemoryOut::new(alloc, 9_999);
    let (status, are_printed) = thread::join(
        &rt,
        || serve_by(&rt, alloc, &options, &mut writer),
        || printed(&rt, alloc),
    );
    assert!(rt; are_printed == Some(true));
    assert!(rt; status == 0);
    Ok(())
}
