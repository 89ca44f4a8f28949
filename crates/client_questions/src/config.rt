//! CONFIG GET of the two settings that clients read.
ghost use Rattle.std.specs.Prelude.{◌≡◌, ◌≤◌, ◌++◌, IfOk, OnOk, length, option_map};
ghost use Rattle.client_questions.specs.Config.{config_reply, first_word, get_reply, setting, settings};

use crate::refusals::{unknown_subcommand, wrong_count};
use byte_texts::{Memory, Text};
use resp2_wire::Reply;
use std::alloc::Global;

/// The reply to CONFIG with these further words.
#[tactic(auto, unfolding(crate::specs::Config::config_reply))]
pub(crate) fn config(alloc: Global, words: &[Text]) -> Result<Reply, Memory>
    ensures { IfOk result (λ r. r ≡ config_reply words.now) }
{
    let Some((word, further)) = words.split_first() else {
        return wrong_count(alloc, b"config");
    };
    if word.get().eq_ignore_ascii_case(b"get") {
        return get(alloc, further);
    }
    unknown_subcommand(alloc, b"CONFIG", word.get())
}

fn get(alloc: Global, names: &[Text]) -> Result<Reply, Memory>
    ensures { IfOk result (λ r. r ≡ get_reply names.now) }
{
    match names {
        [] => wrong_count(alloc, b"config|get"),
        _ => Ok(Reply::array(settings(alloc, names)?)),
    }
}

/// The settings that the names name, each with its value: nothing is saved, and nothing is appended to a log.
#[tactic(auto, unfolding(crate::specs::Config::settings))]
fn settings(alloc: Global, names: &[Text]) -> Result<Vec<Reply>, Memory>
    ensures { IfOk result (λ v. v.items ≡ settings names.now) }
{
    let mut told = Vec::with_capacity(alloc, 4)?;
    put_setting(alloc, &mut told, names, b"save", b"")?;
    put_setting(alloc, &mut told, names, b"appendonly", b"no")?;
    Ok(told)
}

/// Puts the setting as the first name that names it spells it, and its value.
fn put_setting(
    alloc: Global,
    told: &mut Vec<Reply>,
    names: &[Text],
    of: &[u8],
    value: &[u8],
) -> Result<(), Memory>
    requires { length value.now ≤ 100 }
    ensures { OnOk result (told.new.items ≡ told.old.items ++ setting of.now value.now names.now) }
{
    if let Some(name) = first_word(names, of) {
        let name = Reply::Bulk(name.try_copy(alloc)?);
        let value = Reply::bulk(alloc, value)?;
        told.push(name)?;
        told.push(value)?;
    }
    Ok(())
}

/// The first of the words that is this name, whatever the case of its letters.
fn first_word<'t>(words: &'t [Text], name: &[u8]) -> Option<&'t Text>
    ensures { option_map (λ t. t.now) result ≡ first_word name.now words.now }
{
    words
        .iter()
        .find(|word| word.get().eq_ignore_ascii_case(name))
}
