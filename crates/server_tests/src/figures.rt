//! The figures that servers tell.
use crate::script::Replies;
use crate::servers::{book, links};
use cluster_views::SurveyFault;
use plan_outlines::NodeServer;
use server_infos::servers_of;
use std::alloc::Global;
use std::test::Fail;

/// What a server answers to INFO that holds keys, and one that holds none.
const FULL: &[u8] = b"\
        $89\r\n# Memory\r\nused_memory:1048576\r\nmaxmemory:0\r\n\
        # Keyspace\r\ndb0:keys=12,expires=0,avg_ttl=0\r\n\r\n";

const EMPTY: &[u8] = b"$12\r\n# Keyspace\r\n\r\n";

const REFUSED: &[u8] = b"-NOPERM this user has no permissions to run the 'info' command\r\n";

/// The servers n0 to n2 that answer so, with their figures.
fn told(
    alloc: Global,
    first: Replies,
    second: Replies,
    third: Replies,
) -> Result<Vec<NodeServer>, SurveyFault> {
    let book = book(alloc)?;
    let mut links = links(alloc, first, second, third)?;
    servers_of(alloc, &mut links, &book)
}

/// Keys, and bytes that are taken, and that may be.
fn figures(server: &NodeServer) -> (Option<u64>, Option<u64>, Option<u64>) {
    (server.keys, server.used_memory, server.max_memory)
}

#[test]
fn figures_are_told(rt: HostRuntime) -> Result<(), Fail> {
    let alloc = rt.alloc();
    let servers = told(alloc, &[FULL], &[EMPTY], &[REFUSED])?;
    let [full, empty, refused] = servers.as_slice() else {
        return Err(Fail::from("not three servers"));
    };
    assert!(rt; figures(full) == (Some(12), Some(1_048_576), Some(0)));
    assert!(rt; figures(empty) == (Some(0), None, None));
    assert!(rt; figures(refused) == (None, None, None));
    let fault = told(alloc, &[FULL], &[], &[FULL]);
    assert!(rt; fault.is_err());
    Ok(())
}
