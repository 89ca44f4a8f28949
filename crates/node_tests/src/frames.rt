use migrate_frames::{borrow_entries, read_frame, write_frame};
use std::alloc::{AllocError, Global};
use std::test::Fail;

/// Key `b` with the text `1`.
const TEXT: &[u8] = b"\0\x01\0\0\0\x01b\0\0\0\0\x011";

/// Key `b` with the hash of `f` to `1`.
const HASH: &[u8] = b"\0\x01\0\0\0\x01b\x01\0\0\0\x01\0\0\0\x01f\0\0\0\x011";

/// An empty text, a hash of two fields at the empty key, a list with an element twice, and a set.
const EACH_KIND: &[u8] = b"\0\x04\
    \0\0\0\x01t\0\0\0\0\0\
    \0\0\0\0\x01\0\0\0\x02\0\0\0\x01g\0\0\0\x012\0\0\0\x01f\0\0\0\0\
    \0\0\0\x01l\x02\0\0\0\x02\0\0\0\x01a\0\0\0\x01a\
    \0\0\0\x01s\x03\0\0\0\x02\0\0\0\x02yy\0\0\0\x01x";

/// The bytes are read, and what was read is written as the same bytes.
#[test]
fn each_kind_there_and_back(rt: HostRuntime) -> Result<(), Fail> {
    for bytes in [TEXT, HASH, EACH_KIND].iter() {
        let batch = read_frame(rt.alloc(), bytes)?;
        let entries = borrow_entries(rt.alloc(), batch.as_slice())?;
        let again = write_frame(rt.alloc(), entries.as_slice())?;
        assert!(rt; again.as_slice() == *bytes);
    }
    Ok(())
}

/// What reading of the bytes gives: a fault in words.
fn outcome(alloc: Global, bytes: &[u8]) -> Result<String, AllocError> {
    match read_frame(alloc, bytes) {
        Ok(_) => format!(in alloc; "a frame"),
        Err(fault) => format!(in alloc; "{fault}"),
    }
}

const FAULTS: &[(&[u8], &str)] = &[
    (b"\0\0", "3 BadLength"),
    (b"\x03\xe9", "3 BadLength"),
    (b"\0\x01\0\0\0\x01b\x04", "2 BadKind"),
    (
        b"\0\x02\0\0\0\x01b\0\0\0\0\x011\0\0\0\x01b",
        "4 RepeatedKey",
    ),
    (b"\0\x01\0\0\0\x01b\0\0\0\0\x011\xff", "5 Trailing"),
    (b"\0\x01\0\x10\0\x01", "3 BadLength"),
    (b"\0\x01\0\0\0\x01b\x02\0\0\0\0", "3 BadLength"),
    (b"\0\x01\0\0\0\x01b\x02\0\x10\0\x01", "3 BadLength"),
    (
        b"\0\x01\0\0\0\0\x01\0\0\0\x02\0\0\0\x01f\0\0\0\0\0\0\0\x01f",
        "4 RepeatedKey",
    ),
    (
        b"\0\x01\0\0\0\0\x03\0\0\0\x02\0\0\0\x01m\0\0\0\x01m",
        "4 RepeatedKey",
    ),
];

#[test]
fn faults_by_bytes(rt: HostRuntime) -> Result<(), Fail> {
    for (bytes, wanted) in FAULTS {
        assert!(rt; outcome(rt.alloc(), bytes)?.as_str() == *wanted);
    }
    Ok(())
}

#[test]
fn beginnings_are_truncated(rt: HostRuntime) -> Result<(), Fail> {
    for frame in [TEXT, HASH].iter() {
        for length in 0..frame.len() {
            let fault = outcome(rt.alloc(), &frame[..length])?;
            assert!(rt; fault.as_str() == "1 Truncated", "{length} bytes");
        }
    }
    Ok(())
}
