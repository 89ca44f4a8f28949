//! What is said of the versions of servers.
ghost use Rattle.std.specs.Prelude.{◌≡◌, ◌≤◌, ◌++◌, IfOk, OnOk, length};
ghost use Rattle.server_versions.specs.Telling.{different_line, lines_from, untried_line, version_line, version_lines};
ghost use Rattle.server_versions.specs.Telling.{version_words};
ghost use Rattle.server_versions.specs.Versions.{are_tried};

use crate::versions::{ServerVersion, are_same, is_tried};
use byte_texts::Memory;
use key_slots::NodeId;
use std::alloc::Global;
use survey_texts::{put, put_node};

/// A line for each node, n0's first, as `n0 runs Redis 7.0.15`; a line more where they run different versions, and one
/// where the tool was not tried at one of these.
pub fn version_lines(alloc: Global, versions: &[ServerVersion]) -> Result<Vec<u8>, Memory>
    requires { length versions.now ≤ 255 }
    ensures { IfOk result (λ t. t.items ≡ version_lines versions.now) }
{
    let mut out = Vec::new(alloc);
    put_lines(&mut out, versions)?;
    put_different(&mut out, versions)?;
    put_untried(&mut out, versions)?;
    Ok(out)
}

/// Puts a line for each node.
fn put_lines(out: &mut Vec<u8>, versions: &[ServerVersion]) -> Result<(), Memory>
    requires { length versions.now ≤ 255 }
    ensures { OnOk result (out.new.items ≡ out.old.items ++ lines_from 0 versions.now) }
{
    let mut number = 0u8;
    let mut left = versions;
    while let [version, others @ ..] = left {
        put_line(out, NodeId::of(number), version)?;
        number += 1;
        left = others;
    }
    Ok(())
}

/// Puts the node's line.
fn put_line(out: &mut Vec<u8>, node: NodeId, version: &ServerVersion) -> Result<(), Memory>
    ensures { OnOk result (out.new.items ≡ out.old.items ++ version_line node version.now) }
{
    put_node(out, node)?;
    put_words(out, version)?;
    put(out, b"\n")
}

/// Puts what the node runs.
fn put_words(out: &mut Vec<u8>, version: &ServerVersion) -> Result<(), Memory>
    ensures { OnOk result (out.new.items ≡ out.old.items ++ version_words version.now) }
{
    match version {
        ServerVersion::Redis(number) => put_both(out, b" runs Redis ", number.get()),
        ServerVersion::Valkey(number) => put_both(out, b" runs Valkey ", number.get()),
        ServerVersion::Untold => put(out, b" does not tell its version"),
    }
}

/// Puts the words, and the number after them.
fn put_both(out: &mut Vec<u8>, words: &[u8], number: &[u8]) -> Result<(), Memory>
    ensures { OnOk result (out.new.items ≡ out.old.items ++ (words.now ++ number.now)) }
{
    put(out, words)?;
    put(out, number)
}

/// Puts that the versions differ, if they do.
fn put_different(out: &mut Vec<u8>, versions: &[ServerVersion]) -> Result<(), Memory>
    ensures { OnOk result (out.new.items ≡ out.old.items ++ different_line versions.now) }
{
    if are_same(versions) {
        Ok(())
    } else {
        put(out, b"the nodes run different versions\n")
    }
}

/// Puts that one of the versions was not tried, if it was not.
fn put_untried(out: &mut Vec<u8>, versions: &[ServerVersion]) -> Result<(), Memory>
    ensures { OnOk result (out.new.items ≡ out.old.items ++ untried_line versions.now) }
{
    if are_tried(versions) {
        Ok(())
    } else {
        put(out, b"reshard was not tried at each of these versions\n")
    }
}

/// Whether the tool was tried at each of them.
fn are_tried(versions: &[ServerVersion]) -> bool
    ensures { result ≡ are_tried versions.now }
{
    let mut left = versions;
    while let [version, others @ ..] = left {
        if !is_tried(version) {
            return false;
        }
        left = others;
    }
    true
}
