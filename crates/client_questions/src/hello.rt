//! HELLO with its options.
ghost use Rattle.std.specs.Prelude.{◌≡◌, ◌≤◌, ◌++◌, ◌∷◌, [], IfOk, MatchResult, OnOk, length, unwrap_or};
ghost use Rattle.resp2_wire.specs.declared.reply.Reply.TheVariants as reply;
ghost use Rattle.client_questions.specs.Hello.{ends, greeting, hello_end, hello_reply};
ghost use Rattle.client_questions.specs.Hello.{name_after_hello, options_end, or_greeting, syntax_in, version_refusal};
ghost use Rattle.client_questions.specs.Hello.{wrong_password};
ghost use Rattle.client_questions.specs.OptionsSeen.{shown_end, shown_name};
ghost use Rattle.client_questions.specs.Client.{bad_name};
ghost use Rattle.typed_values.specs.Numbers.{number};

use crate::caller::Caller;
use crate::client::{bad_name, is_name, told_id};
use crate::refusals::quoted;
use byte_texts::{Memory, Text, is};
use resp2_wire::Reply;
use std::alloc::Global;
use typed_values::read_number;

/// The most bytes of a wrong option that its refusal shows, so that this is a line of the wire.
const OPTION_BYTES: usize = 960;

/// What the words of HELLO come to: the last name that an option set, and the refusal of the first wrong one.
#[derive(Drop)]
struct OptionsEnd<'a> {
    name: Option<&'a Text>,
    refusal: Option<Reply>,
}

/// The reply to HELLO with these further words, which may give the connection a name.
pub(crate) fn hello(alloc: Global, caller: &mut Caller, words: &[Text]) -> Result<Reply, Memory>
    ensures { MatchResult result
        (λ r. (r ≡ hello_reply caller.old.id words.now)
        × (caller.new ≡ record { id = caller.old.id; name = name_after_hello caller.old.name words.now }))
        (λ e. caller.new ≡ caller.old) }
{
    let OptionsEnd { name, refusal } = hello_end(alloc, words)?;
    let reply = or_greeting(alloc, caller.id, refusal)?;
    take_name(alloc, caller, name)?;
    Ok(reply)
}

/// Gives the connection the name, if there is one.
fn take_name(alloc: Global, caller: &mut Caller, name: Option<&Text>) -> Result<(), Memory>
    ensures { MatchResult result
        (λ u. caller.new ≡
        record { id = caller.old.id; name = unwrap_or (shown_name name.entry) caller.old.name })
        (λ e. caller.new ≡ caller.old) }
{
    if let Some(name) = name {
        caller.name = name.try_copy(alloc)?;
    }
    Ok(())
}

fn or_greeting(alloc: Global, id: u64, refusal: Option<Reply>) -> Result<Reply, Memory>
    ensures { IfOk result (λ r. r ≡ or_greeting id refusal) }
{
    match refusal {
        Some(reply) => Ok(reply),
        None => greeting(alloc, id),
    }
}

#[tactic(auto, unfolding(crate::specs::Hello::hello_end))]
fn hello_end<'a>(alloc: Global, words: &'a [Text]) -> Result<OptionsEnd<'a>, Memory>
    ensures { IfOk result (λ e. shown_end e ≡ hello_end words.now) }
{
    let Some((version, options)) = words.split_first() else {
        return Ok(OptionsEnd {
            name: None,
            refusal: None,
        });
    };
    match version_refusal(alloc, version.get())? {
        None => options_end(alloc, None, options),
        refusal => Ok(OptionsEnd {
            name: None,
            refusal,
        }),
    }
}

/// Why the word is no version that is spoken, if it is none.
fn version_refusal(alloc: Global, word: &[u8]) -> Result<Option<Reply>, Memory>
    ensures { IfOk result (λ r. r ≡ version_refusal (number word.now)) }
{
    match read_number(word) {
        None => Ok(Some(Reply::error(
            alloc,
            b"ERR Protocol version is not an integer or out of range",
        )?)),
        Some(2) => Ok(None),
        Some(_) => Ok(Some(Reply::error(alloc, b"NOPROTO unsupported protocol version")?)),
    }
}

/// What the options come to, where `name` was the last that was set before them.
#[cycle(options)]
#[tactic(auto, unfolding(crate::specs::Hello::options_end))]
fn options_end<'a>(
    alloc: Global,
    name: Option<&'a Text>,
    options: &'a [Text],
) -> Result<OptionsEnd<'a>, Memory>
    ensures { IfOk result (λ e. shown_end e ≡ options_end (shown_name name.entry) options.now) }
{
    match options {
        [] => Ok(OptionsEnd {
            name,
            refusal: None,
        }),
        [option, further @ ..] => option_end(alloc, name, option, further),
    }
}

/// What this option comes to, and those after it.
#[cycle(options)]
#[tactic(auto, unfolding(crate::specs::Hello::options_end))]
fn option_end<'a>(
    alloc: Global,
    name: Option<&'a Text>,
    option: &'a Text,
    further: &'a [Text],
) -> Result<OptionsEnd<'a>, Memory>
    ensures { IfOk result (λ e. shown_end e ≡ options_end (shown_name name.entry) (option.now ∷ further.now)) }
{
    match further {
        [] => wrong_option(alloc, name, option),
        [value] => last_option(alloc, name, option, value),
        [value, next, more @ ..] => long_end(alloc, name, option, value, next, more),
    }
}

/// What this option comes to, with the two words after it, and those after them.
#[cycle(options)]
#[tactic(auto, unfolding(crate::specs::Hello::options_end))]
fn long_end<'a>(
    alloc: Global,
    name: Option<&'a Text>,
    option: &'a Text,
    value: &'a Text,
    next: &'a Text,
    more: &'a [Text],
) -> Result<OptionsEnd<'a>, Memory>
    ensures { IfOk result
        (λ e. shown_end e ≡ options_end (shown_name name.entry) (option.now ∷ value.now ∷ next.now ∷ more.now)) }
{
    if option.get().eq_ignore_ascii_case(b"auth") {
        if is(value.get(), b"default") {
            return options_end(alloc, name, more);
        }
        return wrong_user(alloc, name);
    }
    if !option.get().eq_ignore_ascii_case(b"setname") {
        return wrong_option(alloc, name, option);
    }
    if is_name(value.get()) {
        return option_end(alloc, Some(value), next, more);
    }
    wrong_name(alloc, name)
}

/// What the option comes to with one word after it.
#[tactic(auto, unfolding(crate::specs::Hello::options_end))]
fn last_option<'a>(
    alloc: Global,
    name: Option<&'a Text>,
    option: &'a Text,
    value: &'a Text,
) -> Result<OptionsEnd<'a>, Memory>
    ensures { IfOk result (λ e. shown_end e ≡ options_end (shown_name name.entry) (option.now ∷ value.now ∷ [])) }
{
    if option.get().eq_ignore_ascii_case(b"auth") {
        return wrong_option(alloc, name, option);
    }
    if !option.get().eq_ignore_ascii_case(b"setname") {
        return wrong_option(alloc, name, option);
    }
    if !is_name(value.get()) {
        return wrong_name(alloc, name);
    }
    Ok(OptionsEnd {
        name: Some(value),
        refusal: None,
    })
}

fn wrong_user<'a>(alloc: Global, name: Option<&'a Text>) -> Result<OptionsEnd<'a>, Memory>
    ensures { IfOk result (λ e. shown_end e ≡ ends (shown_name name.entry) (Some wrong_password)) }
{
    let refusal = Some(wrong_password(alloc)?);
    Ok(OptionsEnd { name, refusal })
}

fn wrong_name<'a>(alloc: Global, name: Option<&'a Text>) -> Result<OptionsEnd<'a>, Memory>
    ensures { IfOk result (λ e. shown_end e ≡ ends (shown_name name.entry) (Some bad_name)) }
{
    let refusal = Some(bad_name(alloc)?);
    Ok(OptionsEnd { name, refusal })
}

fn wrong_option<'a>(
    alloc: Global,
    name: Option<&'a Text>,
    option: &'a Text,
) -> Result<OptionsEnd<'a>, Memory>
    ensures { IfOk result (λ e. shown_end e ≡ ends (shown_name name.entry) (Some (syntax_in option.now))) }
{
    let refusal = Some(syntax_in(alloc, option.get())?);
    Ok(OptionsEnd { name, refusal })
}

/// The reply to a user or a password that is wrong.
pub(crate) fn wrong_password(alloc: Global) -> Result<Reply, Memory>
    ensures { IfOk result (λ r. r ≡ wrong_password) }
{
    Reply::error(
        alloc,
        b"WRONGPASS invalid username-password pair or user is disabled.",
    )
}

/// The reply to an option that is wrong, or has too few words after it.
#[tactic(auto, unfolding(crate::specs::Hello::syntax_in))]
fn syntax_in(alloc: Global, option: &[u8]) -> Result<Reply, Memory>
    ensures { IfOk result (λ r. r ≡ syntax_in option.now) }
{
    let option = quoted(alloc, OPTION_BYTES, option)?;
    let mut text = Text::from_slice(alloc, b"ERR Syntax error in HELLO option '")?;
    text.append(option.as_slice())?;
    text.append(b"'")?;
    Ok(Reply::Error(text))
}

/// The properties of the server, each name followed by its value.
#[tactic(auto, unfolding(crate::specs::Hello::greeting))]
fn greeting(alloc: Global, id: u64) -> Result<Reply, Memory>
    ensures { IfOk result (λ r. r ≡ greeting id) }
{
    let mut facts = Vec::with_capacity(alloc, 14)?;
    put_text(alloc, &mut facts, b"server", b"redis")?;
    put_text(alloc, &mut facts, b"version", b"7.0.15")?;
    put(alloc, &mut facts, b"proto", Reply::Number(2))?;
    put(alloc, &mut facts, b"id", told_id(id))?;
    put_text(alloc, &mut facts, b"mode", b"cluster")?;
    put_text(alloc, &mut facts, b"role", b"master")?;
    put(alloc, &mut facts, b"modules", Reply::array(Vec::new(alloc)))?;
    Ok(Reply::array(facts))
}

fn put_text(alloc: Global, facts: &mut Vec<Reply>, name: &[u8], value: &[u8]) -> Result<(), Memory>
    requires name { length name.now ≤ 100 }
    requires value { length value.now ≤ 100 }
    ensures { OnOk result (facts.new.items ≡ facts.old.items ++ reply.Bulk name.now ∷ reply.Bulk value.now ∷ []) }
{
    let value = Reply::bulk(alloc, value)?;
    put(alloc, facts, name, value)
}

fn put(alloc: Global, facts: &mut Vec<Reply>, name: &[u8], value: Reply) -> Result<(), Memory>
    requires { length name.now ≤ 100 }
    ensures { OnOk result (facts.new.items ≡ facts.old.items ++ reply.Bulk name.now ∷ value ∷ []) }
{
    let name = Reply::bulk(alloc, name)?;
    facts.push(name)?;
    facts.push(value)?;
    Ok(())
}
