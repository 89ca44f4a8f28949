//! What is told of servers' errors.
use crate::servers::text;
use byte_texts::Memory;
use server_commands::{Credentials, told};
use std::alloc::Global;
use std::process::Abort;
use std::test::Fail;

/// What a server said, and what is told of it where connections show the password `secret`.
const TOLD: &[(&[u8], &[u8])] = &[
    (b"ERR I'm \xc3\xa4 server", b"ERR I'm \\xc3\\xa4 server"),
    (
        b"ERR unknown command 'AUTH', with args beginning with: 'secret' ",
        b"ERR unknown command 'AUTH'",
    ),
    (
        b"ERR secrets are no secret\x1b[2J",
        b"ERR ***s are no ***\\x1b[2J",
    ),
    (
        b"NOAUTH Authentication required.",
        b"NOAUTH Authentication required.; set RESHARD_AUTH, and RESHARD_USER for a user of an ACL",
    ),
    (
        b"ERR Target instance replied with error: LOADING Redis is loading\x7f",
        b"ERR Target instance replied with error: LOADING Redis is loading\\x7f; \
            wait until the server has read its data",
    ),
];

#[test]
fn errors_are_told(rt: HostRuntime) -> Result<(), Fail> {
    let alloc = rt.alloc();
    for (said, wanted) in TOLD {
        let told = told_of(alloc, *said)?;
        assert!(rt; told.as_slice() == *wanted);
    }
    Ok(())
}

fn told_of(alloc: Global, said: &[u8]) -> Result<Vec<u8>, Memory> {
    let credentials = Some(Credentials {
        user: None,
        password: text(alloc, b"secret")?,
    });
    told(alloc, &credentials, said)
}
