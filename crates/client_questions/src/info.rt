//! INFO: the lines that clients read.
ghost use Rattle.std.specs.Prelude.{◌≡◌, ◌≤◌, ◌+◌, IfOk, OnOk, length};
ghost use Rattle.std.specs.List.{list_any};
ghost use Rattle.client_questions.specs.Info.{asks_for, gap, info_reply, info_text, names_section, with_section};

use byte_texts::{Memory, Text};
use resp2_wire::Reply;
use std::alloc::Global;

const SERVER: &[u8] = b"# Server\r\nredis_version:7.0.15\r\nredis_mode:cluster\r\n";

const PERSISTENCE: &[u8] = b"# Persistence\r\nloading:0\r\n";

const REPLICATION: &[u8] = b"# Replication\r\nrole:master\r\nconnected_slaves:0\r\n";

const CLUSTER: &[u8] = b"# Cluster\r\ncluster_enabled:1\r\n";

/// The reply to INFO with these further words: the sections that they name, or all of them.
#[tactic(auto, unfolding(crate::specs::Info::info_text))]
pub(crate) fn info(alloc: Global, words: &[Text]) -> Result<Reply, Memory>
    ensures { IfOk result (λ r. r ≡ info_reply words.now) }
{
    let mut text = Text::empty(alloc);
    put_section(&mut text, words, b"server", SERVER)?;
    put_section(&mut text, words, b"persistence", PERSISTENCE)?;
    put_section(&mut text, words, b"replication", REPLICATION)?;
    put_section(&mut text, words, b"cluster", CLUSTER)?;
    Ok(Reply::Bulk(text))
}

/// Puts the section after the others with an empty line between them, if the words ask for it.
fn put_section(text: &mut Text, words: &[Text], name: &[u8], section: &[u8]) -> Result<(), Memory>
    requires room { length text.old ≤ 1000 }
    requires short { length section.now ≤ 100 }
    ensures put { OnOk result (text.new ≡ with_section name.now section.now words.now text.old) }
    ensures length { length text.new ≤ length text.old + 102 }
{
    if !asks_for(name, words) {
        return Ok(());
    }
    text.append(gap(text.get()))?;
    text.append(section)
}

/// What stands between these sections and the next.
fn gap(sections: &[u8]) -> &'static [u8]
    ensures { result.now ≡ gap sections.now }
{
    match sections {
        [] => b"",
        _ => b"\r\n",
    }
}

/// Whether the words ask for the section of this name: with no words INFO asks for all.
fn asks_for(name: &[u8], words: &[Text]) -> bool
    ensures { result ≡ asks_for name.now words.now }
{
    match words {
        [] => true,
        _ => any_names(name, words),
    }
}

fn any_names(name: &[u8], words: &[Text]) -> bool
    ensures { result ≡ list_any (names_section name.now) words.now }
{
    words.iter().any(|word| names_section(name, word.get()))
}

fn names_section(name: &[u8], word: &[u8]) -> bool
    ensures { result ≡ names_section name.now word.now }
{
    (word.eq_ignore_ascii_case(name) || word.eq_ignore_ascii_case(b"all"))
        || (word.eq_ignore_ascii_case(b"default") || word.eq_ignore_ascii_case(b"everything"))
}
