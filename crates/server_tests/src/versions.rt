//! The versions that servers tell.
use crate::script::Replies;
use crate::servers::links;
use cluster_views::SurveyFault;
use server_versions::{version_lines, versions_of};
use std::alloc::Global;
use std::test::Fail;

/// What a server of Redis answers to INFO server, one of Valkey, and one of a later Redis.
pub const REDIS: &[u8] = b"\
        $52\r\n# Server\r\nredis_version:7.0.15\r\nredis_mode:cluster\r\n\r\n";

pub const VALKEY: &[u8] = b"\
        $73\r\n# Server\r\nredis_version:7.2.4\r\nserver_name:valkey\r\nvalkey_version:9.1.2\r\n\r\n";

const LATER: &[u8] = b"\
        $31\r\n# Server\r\nredis_version:8.4.0\r\n\r\n";

const REFUSED: &[u8] = b"-NOPERM this user has no permissions to run the 'info' command\r\n";

const LINES: &[u8] = b"n0 runs Redis 7.0.15\nn1 runs Valkey 9.1.2\nn2 runs Redis 8.4.0\n\
        the nodes run different versions\nreshard was not tried at each of these versions\n";

/// What is said of three servers that answer so.
fn told(
    alloc: Global,
    first: Replies,
    second: Replies,
    third: Replies,
) -> Result<Vec<u8>, SurveyFault> {
    let mut links = links(alloc, first, second, third)?;
    let versions = versions_of(alloc, &mut links, 3)?;
    Ok(version_lines(alloc, versions.as_slice())?)
}

#[test]
fn versions_are_told(rt: HostRuntime) -> Result<(), Fail> {
    let alloc = rt.alloc();
    let lines = told(alloc, &[REDIS], &[VALKEY], &[LATER])?;
    assert!(rt; lines.as_slice() == LINES);
    let lines = told(alloc, &[REDIS], &[REDIS], &[REFUSED])?;
    assert!(rt;
        lines.as_slice().starts_with(
            b"n0 runs Redis 7.0.15\nn1 runs Redis 7.0.15\nn2 does not tell"
        )
    );
    let fault = told(alloc, &[REDIS], &[], &[REDIS]);
    assert!(rt; fault.is_err());
    Ok(())
}
