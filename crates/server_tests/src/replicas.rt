//! Replicas that lack a mark of their master.
use crate::phases::{SOURCE, TARGET, views};
use crate::script::{Replies, Script};
use crate::servers::{NONE, book, links};
use crate::versions::{REDIS, VALKEY};
use byte_streams::MemoryOut;
use cluster_survey::Reach;
use cluster_views::{SurveyFault, survey_of};
use server_links::Unreached;
use server_replicas::replica_lines;
use server_versions::versions_of;
use std::alloc::Global;
use std::net::SocketAddrV4;
use std::test::Fail;

/// What n1 answers to CLUSTER REPLICAS: one line; and what a server does that lacks a right.
const REPLICAS: &[u8] = b"\
        *1\r\n$124\r\ndddddddddddddddddddddddddddddddddddddddd 127.0.0.1:7004@17004 slave \
        bbbbbbbbbbbbbbbbbbbbbbbbbbbbbbbbbbbbbbbb 0 0 2 connected\r\n";

const REFUSED: &[u8] =
    b"-NOPERM this user has no permissions to run the 'cluster|replicas' command\r\n";

/// What the replica lists, with its master's mark and without it.
const MARKED: Replies = &[
    b"\
        $281\r\nbbbbbbbbbbbbbbbbbbbbbbbbbbbbbbbbbbbbbbbb 127.0.0.1:7001@17001 master - 0 0 2 connected 30 5461-10922\n\
        dddddddddddddddddddddddddddddddddddddddd 127.0.0.1:7004@17004 myself,slave \
        bbbbbbbbbbbbbbbbbbbbbbbbbbbbbbbbbbbbbbbb 0 0 2 connected [24-<-aaaaaaaaaaaaaaaaaaaaaaaaaaaaaaaaaaaaaaaa]\n\r\n",
];

const UNMARKED: Replies = &[
    b"\
        $233\r\nbbbbbbbbbbbbbbbbbbbbbbbbbbbbbbbbbbbbbbbb 127.0.0.1:7001@17001 master - 0 0 2 connected 30 5461-10922\n\
        dddddddddddddddddddddddddddddddddddddddd 127.0.0.1:7004@17004 myself,slave \
        bbbbbbbbbbbbbbbbbbbbbbbbbbbbbbbbbbbbbbbb 0 0 2 connected\n\r\n",
];

const LACKS: &[u8] = b"127.0.0.1:7004, a replica of n1, has no mark of slot 24\n";

const SILENT: &[u8] = b"127.0.0.1:7004, a replica of n1, does not tell its marks\n";

const UNTOLD: &[u8] = b"n1 does not tell its replicas\n";

/// One server at every address, with these replies; or nobody listens.
#[derive(Drop)]
struct Anywhere {
    alloc: Global,
    replies: Option<Replies>,
}

impl Reach for Anywhere {
    type Input = Script;

    type Output = MemoryOut;

    ghost reaches = { λ address input output. Unit {0} };

    ghost refuses = { λ address cause. Unit {0} };

    ghost over = { Unit {0} };

    fn reach(&mut self, _address: SocketAddrV4) -> Result<(Script, MemoryOut), Unreached> {
        match self.replies {
            Some(replies) => Ok((
                Script::new(replies, 100),
                MemoryOut::new(self.alloc, 10_000),
            )),
            None => Err(Unreached::Silent),
        }
    }

    fn pause(&mut self) -> bool {
        false
    }
}

/// What is said of the replica of n1, which has a mark of slot 24 and answers so, while n0 and n2 are of Redis.
fn said(alloc: Global, target: Replies, replica: Option<Replies>) -> Result<Vec<u8>, SurveyFault> {
    let mut reach = Anywhere {
        alloc,
        replies: replica,
    };
    let mut links = links(alloc, &[REDIS], target, &[REDIS])?;
    let book = book(alloc)?;
    let views = views(alloc, SOURCE, TARGET)?;
    let surveyed = survey_of(alloc, &book, views.as_slice())?;
    let versions = versions_of(alloc, &mut links, 3)?;
    let text = replica_lines(
        alloc,
        &mut reach,
        &None,
        &mut links,
        &book,
        &surveyed.survey,
        versions.as_slice(),
    )?;
    Ok(text)
}

#[test]
fn a_replica_without_its_masters_mark_is_told(rt: HostRuntime) -> Result<(), Fail> {
    let alloc = rt.alloc();
    let text = said(alloc, &[VALKEY, REPLICAS], Some(UNMARKED))?;
    assert!(rt; text.as_slice() == LACKS);
    let text = said(alloc, &[VALKEY, REPLICAS], Some(MARKED))?;
    assert!(rt; text.as_slice().is_empty());
    let text = said(alloc, &[REDIS, REPLICAS], Some(UNMARKED))?;
    assert!(rt; text.as_slice().is_empty());
    Ok(())
}

#[test]
fn a_replica_that_tells_nothing_is_told(rt: HostRuntime) -> Result<(), Fail> {
    let alloc = rt.alloc();
    let text = said(alloc, &[VALKEY, REPLICAS], Some(NONE))?;
    assert!(rt; text.as_slice() == SILENT);
    let text = said(alloc, &[VALKEY, REPLICAS], None)?;
    assert!(rt; text.as_slice() == SILENT);
    let text = said(alloc, &[VALKEY, REFUSED], None)?;
    assert!(rt; text.as_slice() == UNTOLD);
    Ok(())
}
