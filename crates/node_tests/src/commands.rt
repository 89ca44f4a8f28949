//! Tests of `client_commands`.
use crate::requests::request_of;
use client_commands::Command;
use std::alloc::Global;
use std::process::Abort;
use std::test::Fail;

/// A request for each of the 33 commands, by how many keys it names.
const REQUESTS: [(usize, &str); 3] = [
    (
        1,
        "GET k|set k v|SetNx k v|append k v|strlen k|incr k|decr k|incrby k 2|decrby k 2|hset k f v g w|hget k f|\
         hdel k f g|hlen k|hexists k f|hgetall k|lpush k a b|rpush k a b|lpop k|rpop k|llen k|lrange k 0 -1|\
         sadd k a b|srem k a b|sismember k a|scard k|smembers k|type k",
    ),
    (2, "del k l|rename k l|mget k l|mset k v l w|smove k l m"),
    (3, "exists k l m"),
];

/// How many keys a copy of the command names.
fn copied_keys(alloc: Global, words: &str) -> Result<usize, Fail> {
    let request = request_of(alloc, words).ok_or("no request")?;
    let copy = Command::read(alloc, request)?.try_copy(alloc)?;
    Ok(copy.keys().len())
}

/// Each of the requests is read and copied, and names so many keys.
fn assert_keys(rt: &impl Abort, alloc: Global, keys: usize, requests: &str) -> Result<(), Fail> {
    for words in requests.split('|').take(100) {
        assert!(rt; copied_keys(alloc, words)? == keys);
    }
    Ok(())
}

#[test]
fn reads_and_copies_each_command(rt: HostRuntime) -> Result<(), Fail> {
    for (keys, requests) in REQUESTS {
        assert_keys(&rt, rt.alloc(), keys, requests)?;
    }
    Ok(())
}

/// The text of the fault that the words give.
fn fault_of(alloc: Global, words: &str) -> Result<String, Fail> {
    let request = request_of(alloc, words).ok_or("no request")?;
    match Command::read(alloc, request) {
        Ok(_) => Ok(format!(in alloc; "a command")?),
        Err(fault) => Ok(format!(in alloc; "{fault}")?),
    }
}

#[test]
fn refuses_other_requests(rt: HostRuntime) -> Result<(), Fail> {
    for words in ["get", "get k x", "mset a 1 b", "hset k f"] {
        let fault = fault_of(rt.alloc(), words)?;
        assert!(rt; fault.as_str() == "wrong number of arguments");
    }
    let fault = fault_of(rt.alloc(), "nonsense a b")?;
    assert!(rt; fault.as_str() == "unknown command");
    Ok(())
}
