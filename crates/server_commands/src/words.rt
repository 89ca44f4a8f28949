//! The words of a request, put one after the other.
ghost use Rattle.std.specs.Prelude.{◌≡◌, ◌≤◌, ◌∷◌, ◌++◌, [], OnOk, decimal, length};
ghost use Rattle.byte_texts.specs.declared.text.TheConstants.{MAX_BYTES};
ghost use Rattle.server_commands.specs.Spelling.{login_by, login_words};

use crate::credentials::Credentials;
use byte_texts::{Memory, Text, TextList};
use itoa::Buffer;
use std::alloc::Global;

/// Puts the word at the end.
pub fn put(words: &mut TextList, alloc: Global, word: &[u8]) -> Result<(), Memory>
    requires { length word.now ≤ MAX_BYTES }
    ensures { OnOk result (words.new ≡ words.old ++ word.now ∷ []) }
{
    words.push(Text::from_slice(alloc, word)?)
}

/// Puts the number at the end, in decimal digits.
pub fn put_number(words: &mut TextList, alloc: Global, number: u32) -> Result<(), Memory>
    ensures { OnOk result (words.new ≡ words.old ++ decimal number ∷ []) }
{
    let mut buffer = Buffer::new();
    put(words, alloc, buffer.format(number).as_bytes())
}

/// Puts a copy of the text at the end.
pub fn put_text(words: &mut TextList, alloc: Global, text: &Text) -> Result<(), Memory>
    ensures { OnOk result (words.new ≡ words.old ++ text.now ∷ []) }
{
    words.push(text.try_copy(alloc)?)
}

/// Puts copies of the texts at the end.
pub fn put_texts(words: &mut TextList, alloc: Global, texts: &[Text]) -> Result<(), Memory>
    ensures { OnOk result (words.new ≡ words.old ++ texts.now) }
{
    let mut rest = texts;
    while let [text, others @ ..] = rest {
        put_text(words, alloc, text)?;
        rest = others;
    }
    Ok(())
}

/// Puts what a MIGRATE shows its target at the end, if it shows anything.
pub fn put_login(
    words: &mut TextList,
    alloc: Global,
    credentials: &Option<Credentials>,
) -> Result<(), Memory>
    ensures { OnOk result (words.new ≡ words.old ++ login_words credentials.now) }
{
    match credentials {
        Some(credentials) => put_user(words, alloc, credentials),
        None => Ok(()),
    }
}

fn put_user(words: &mut TextList, alloc: Global, credentials: &Credentials) -> Result<(), Memory>
    ensures { OnOk result (words.new ≡ words.old ++ login_by credentials.now.user credentials.now.password) }
{
    match &credentials.user {
        Some(user) => {
            put(words, alloc, b"AUTH2")?;
            put_text(words, alloc, user)?;
        }
        None => put(words, alloc, b"AUTH")?,
    }
    put_text(words, alloc, &credentials.password)
}
