use byte_streams::{MemoryIn, MemoryOut};
use cluster_cli::run_words;
use rehearsal::rehearse;
use std::alloc::{AllocError, Global};
use std::env::Env;
use std::fs::{File, Files};
use std::net::{Net, TcpListener, TcpStream};
use std::process::Abort;
use std::sync::Wait;
use std::thread::Threads;
use std::time::Clock;

/// A rehearsal that reads the script, and then the end or a failure, and may write so many bytes.
fn assert_rehearsal(
    rt: &impl Abort,
    alloc: Global,
    (script, fails, room): (&[u8], bool, usize),
    (status, output): (u8, &[u8]),
) {
    let mut reader = MemoryIn::new(script, fails);
    let mut writer = MemoryOut::new(alloc, room);
    assert!(rt; rehearse(alloc, &mut reader, &mut writer) == status);
    assert!(rt; writer.bytes.as_slice() == output);
}

/// What is printed before a read or a write fails is a prefix of what is printed otherwise, and nothing comes after.
#[test]
fn reads_and_writes_that_fail(rt: HostRuntime) {
    let set = b"cluster 1\nat n0 SET b 1\n";
    let armed = b"cluster 3\nreshard-plan 1\nmove 3300 from n0 to n1 by 10\nend\n";
    let cases: [(&[u8], bool, usize, u8, &[u8]); 8] = [
        (b"", false, 99, 0, b""),
        (b"", true, 99, 1, b""),
        (set, false, 99, 0, b"+OK\n"),
        (set, true, 99, 1, b"+OK\n"),
        (set, false, 2, 1, b"+O"),
        (set, false, 0, 1, b""),
        (armed, true, 99, 1, b"verified 6 commands\n"),
        (armed, false, 24, 1, b"verified 6 commands\nunfi"),
    ];
    for (script, fails, room, status, output) in cases {
        assert_rehearsal(&rt, rt.alloc(), (script, fails, room), (status, output));
    }
}

fn status_of<
    H: Net<Listener = TcpListener, Stream = TcpStream>
        + Threads
        + Wait
        + Sync
        + Clock
        + Files<File = File>
        + Env
        + AllocGlobal,
>(rt: &H, alloc: Global, words: &[&str], room: usize) -> Result<u8, AllocError> {
    let mut owned = Vec::new(alloc);
    for word in words {
        owned.push(String::from_str(alloc, word)?)?;
    }
    let mut reader = MemoryIn::new(b"cluster 1\nat n0 SET b 1\n", false);
    let mut writer = MemoryOut::new(alloc, room);
    let mut errors = MemoryOut::new(alloc, room);
    Ok(run_words(
        rt,
        alloc,
        owned.as_slice(),
        &mut reader,
        &mut writer,
        &mut errors,
    ))
}

const COMMAND_LINES: &[(&[&str], usize, u8)] = &[
    (&["rehearse"], 9_999, 0),
    (&["rehearse"], 0, 1),
    (&["rehearse", "now"], 9_999, 2),
    (&["unknown"], 9_999, 2),
    (&["unknown"], 0, 1),
    (&["--help"], 9_999, 0),
    (&["--version"], 9_999, 0),
];

/// The status is 2 for words that are no command, and 1 where not even that can be reported.
#[test]
fn words_of_the_command_line(rt: HostRuntime) -> Result<(), AllocError> {
    for &(words, room, status) in COMMAND_LINES {
        assert!(rt; status_of(&rt, rt.alloc(), words, room)? == status);
    }
    Ok(())
}
