//! Commands as requests spell them: the other way of `reading`.
ghost use Rattle.std.specs.Prelude.{◌≡◌, ℕ, List, [], ◌∷◌, ◌++◌, length, IfOk, OnOk, Ok};
ghost use Rattle.client_commands.specs.Commands.{command_of};
ghost use Rattle.client_commands.specs.Spelling.{alternating, hash_words, list_words, set_words, spelled};
ghost use Rattle.client_commands.specs.Spelling.{text_words, unpaired};
ghost use Rattle.client_commands.specs.Table.{text_of};

use crate::assignments::Assignments;
use crate::command::{Command, HashCommand, ListCommand, SetCommand, TextCommand};
use crate::name::CommandName::{self, OnHash, OnKeys, OnList, OnSet, OnText};
use crate::name::{HashName, KeysName, ListName, SetName, TextName};
use byte_texts::{Text, TextList};
use std::alloc::{AllocError, Global};
use std::slice;
use typed_values::PairList;

impl Command {
    /// The words that spell the command: where any request is read as it, these are too.
    pub fn words(&self, alloc: Global) -> Result<TextList, AllocError>
        ensures value { IfOk result (λ ws. ws ≡ spelled self.now) }
        ensures read { (request : List (List ℕ)) → command_of request ≡ Ok self.now
            → IfOk result (λ ws. command_of ws ≡ Ok self.now) }
    {
        self.spelled(alloc)
    }

    fn spelled(&self, alloc: Global) -> Result<TextList, AllocError>
        ensures { IfOk result (λ ws. ws ≡ spelled self.now) }
    {
        match self {
            Self::OnText(key, command) => command.words(alloc, key),
            Self::OnHash(key, command) => command.words(alloc, key),
            Self::OnList(key, command) => command.words(alloc, key),
            Self::OnSet(key, command) => command.words(alloc, key),
            Self::TypeOf(key) => named(alloc, OnKeys(KeysName::TypeOf), slice::from_ref(key)),
            Self::Del(keys) => named(alloc, OnKeys(KeysName::Del), keys.get()),
            Self::Exists(keys) => named(alloc, OnKeys(KeysName::Exists), keys.get()),
            Self::Rename(keys) => named(alloc, OnKeys(KeysName::Rename), keys.get()),
            Self::MGet(keys) => named(alloc, OnKeys(KeysName::MGet), keys.get()),
            Self::MSet(assignments) => mset_words(alloc, assignments),
            Self::SMove(keys, member) => {
                with_last(
                    alloc,
                    named(alloc, OnKeys(KeysName::SMove), keys.get())?,
                    member,
                )
            }
        }
    }
}

impl TextCommand {
    fn words(&self, alloc: Global, key: &Text) -> Result<TextList, AllocError>
        ensures { IfOk result (λ ws. ws ≡ text_words key.now self.now) }
    {
        match self {
            Self::Get => at_key(alloc, OnText(TextName::Get), key),
            Self::Set(value) => at_key_with(
                alloc,
                OnText(TextName::Set),
                key,
                slice::from_ref(value),
            ),
            Self::SetNx(value) => at_key_with(
                alloc,
                OnText(TextName::SetNx),
                key,
                slice::from_ref(value),
            ),
            Self::Append(value) => at_key_with(
                alloc,
                OnText(TextName::Append),
                key,
                slice::from_ref(value),
            ),
            Self::StrLen => at_key(alloc, OnText(TextName::StrLen), key),
            Self::Incr => at_key(alloc, OnText(TextName::Incr), key),
            Self::Decr => at_key(alloc, OnText(TextName::Decr), key),
            Self::IncrBy(number) => at_key_with(
                alloc,
                OnText(TextName::IncrBy),
                key,
                slice::from_ref(number),
            ),
            Self::DecrBy(number) => at_key_with(
                alloc,
                OnText(TextName::DecrBy),
                key,
                slice::from_ref(number),
            ),
        }
    }
}

impl HashCommand {
    fn words(&self, alloc: Global, key: &Text) -> Result<TextList, AllocError>
        ensures { IfOk result (λ ws. ws ≡ hash_words key.now self.now) }
    {
        match self {
            Self::HSet(pairs) => hset_words(alloc, key, pairs),
            Self::HGet(field) => at_key_with(
                alloc,
                OnHash(HashName::HGet),
                key,
                slice::from_ref(field),
            ),
            Self::HDel(fields) => at_key_with(alloc, OnHash(HashName::HDel), key, fields.get()),
            Self::HLen => at_key(alloc, OnHash(HashName::HLen), key),
            Self::HExists(field) => at_key_with(
                alloc,
                OnHash(HashName::HExists),
                key,
                slice::from_ref(field),
            ),
            Self::HGetAll => at_key(alloc, OnHash(HashName::HGetAll), key),
        }
    }
}

impl ListCommand {
    fn words(&self, alloc: Global, key: &Text) -> Result<TextList, AllocError>
        ensures { IfOk result (λ ws. ws ≡ list_words key.now self.now) }
    {
        match self {
            Self::LPush(elements) => at_key_with(
                alloc,
                OnList(ListName::LPush),
                key,
                elements.get(),
            ),
            Self::RPush(elements) => at_key_with(
                alloc,
                OnList(ListName::RPush),
                key,
                elements.get(),
            ),
            Self::LPop => at_key(alloc, OnList(ListName::LPop), key),
            Self::RPop => at_key(alloc, OnList(ListName::RPop), key),
            Self::LLen => at_key(alloc, OnList(ListName::LLen), key),
            Self::LRange(start, stop) => {
                let words = at_key_with(
                    alloc,
                    OnList(ListName::LRange),
                    key,
                    slice::from_ref(start),
                )?;
                with_last(alloc, words, stop)
            }
        }
    }
}

impl SetCommand {
    fn words(&self, alloc: Global, key: &Text) -> Result<TextList, AllocError>
        ensures { IfOk result (λ ws. ws ≡ set_words key.now self.now) }
    {
        match self {
            Self::SAdd(members) => at_key_with(alloc, OnSet(SetName::SAdd), key, members.get()),
            Self::SRem(members) => at_key_with(alloc, OnSet(SetName::SRem), key, members.get()),
            Self::SIsMember(member) => {
                at_key_with(
                    alloc,
                    OnSet(SetName::SIsMember),
                    key,
                    slice::from_ref(member),
                )
            }
            Self::SCard => at_key(alloc, OnSet(SetName::SCard), key),
            Self::SMembers => at_key(alloc, OnSet(SetName::SMembers), key),
        }
    }
}

fn hset_words(alloc: Global, key: &Text, pairs: &PairList) -> Result<TextList, AllocError>
    ensures { IfOk result (λ ws. ws ≡ hash_words key.now (HashCommand.HSet pairs.now)) }
{
    let mut words = at_key(alloc, OnHash(HashName::HSet), key)?;
    push_pairs(alloc, &mut words, pairs.get())?;
    Ok(words)
}

fn mset_words(alloc: Global, assignments: &Assignments) -> Result<TextList, AllocError>
    ensures { IfOk result (λ ws. ws ≡ spelled (Command.MSet assignments.now)) }
{
    let mut words = name_alone(alloc, OnKeys(KeysName::MSet))?;
    push_alternating(alloc, &mut words, assignments.keys(), assignments.values())?;
    Ok(words)
}

/// The name alone.
fn name_alone(alloc: Global, name: CommandName) -> Result<TextList, AllocError>
    ensures { IfOk result (λ ws. ws ≡ text_of name ∷ []) }
{
    let mut words = TextList::new(alloc);
    words.push(Text::from_slice(alloc, name.text())?)?;
    Ok(words)
}

/// The name, and then the texts.
fn named(alloc: Global, name: CommandName, texts: &[Text]) -> Result<TextList, AllocError>
    ensures { IfOk result (λ ws. ws ≡ text_of name ∷ texts.now) }
{
    let mut words = name_alone(alloc, name)?;
    push_texts(alloc, &mut words, texts)?;
    Ok(words)
}

/// The name and the key.
fn at_key(alloc: Global, name: CommandName, key: &Text) -> Result<TextList, AllocError>
    ensures { IfOk result (λ ws. ws ≡ text_of name ∷ key.now ∷ []) }
{
    named(alloc, name, slice::from_ref(key))
}

/// The name, the key and then the texts.
fn at_key_with(
    alloc: Global,
    name: CommandName,
    key: &Text,
    texts: &[Text],
) -> Result<TextList, AllocError>
    ensures { IfOk result (λ ws. ws ≡ text_of name ∷ key.now ∷ texts.now) }
{
    let mut words = at_key(alloc, name, key)?;
    push_texts(alloc, &mut words, texts)?;
    Ok(words)
}

/// The words with one more.
fn with_last(alloc: Global, words: TextList, last: &Text) -> Result<TextList, AllocError>
    ensures { IfOk result (λ ws. ws ≡ words ++ last.now ∷ []) }
{
    let mut words = words;
    words.push(last.try_copy(alloc)?)?;
    Ok(words)
}

fn push_texts(alloc: Global, words: &mut TextList, texts: &[Text]) -> Result<(), AllocError>
    ensures { OnOk result (words.new ≡ words.old ++ texts.now) }
{
    for text in texts {
        words.push(text.try_copy(alloc)?)?;
    }
    Ok(())
}

fn push_both(
    alloc: Global,
    words: &mut TextList,
    first: &Text,
    second: &Text,
) -> Result<(), AllocError>
    ensures { OnOk result (words.new ≡ words.old ++ first.now ∷ second.now ∷ []) }
{
    words.push(first.try_copy(alloc)?)?;
    words.push(second.try_copy(alloc)?)
}

fn push_pairs(alloc: Global, words: &mut TextList, pairs: &[(Text, Text)]) -> Result<(), AllocError>
    ensures { OnOk result (words.new ≡ words.old ++ unpaired pairs.now) }
{
    let mut rest = pairs;
    while let [pair, others @ ..] = rest {
        push_both(alloc, words, &pair.0, &pair.1)?;
        rest = others;
    }
    Ok(())
}

fn push_alternating(
    alloc: Global,
    words: &mut TextList,
    keys: &[Text],
    values: &[Text],
) -> Result<(), AllocError>
    requires { length values.now ≡ length keys.now }
    ensures { OnOk result (words.new ≡ words.old ++ alternating keys.now values.now) }
{
    let mut keys_left = keys;
    let mut values_left = values;
    while let [key, other_keys @ ..] = keys_left {
        let Some((value, other_values)) = values_left.split_first() else {
            return Ok(());
        };
        push_both(alloc, words, key, value)?;
        keys_left = other_keys;
        values_left = other_values;
    }
    Ok(())
}
