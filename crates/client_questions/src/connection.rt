//! SELECT, ECHO, READONLY, READWRITE and AUTH.
ghost use Rattle.std.specs.Prelude.{◌≡◌, ◌≤◌, IfOk, length};
ghost use Rattle.client_questions.specs.Connection.{alone_reply, auth_reply, database_reply, echo_reply, select_reply};
ghost use Rattle.client_questions.specs.Connection.{no_password, user_reply};
ghost use Rattle.typed_values.specs.Numbers.{number};

use crate::hello::wrong_password;
use crate::refusals::{not_an_integer, ok, wrong_count};
use byte_texts::{Memory, Text, is};
use resp2_wire::Reply;
use std::alloc::Global;
use typed_values::read_number;

const LEAST_DATABASE: i64 = -2_147_483_648;

const MOST_DATABASE: i64 = 2_147_483_647;

/// The reply to SELECT with these further words.
pub(crate) fn select(alloc: Global, words: &[Text]) -> Result<Reply, Memory>
    ensures { IfOk result (λ r. r ≡ select_reply words.now) }
{
    match words {
        [word] => database(alloc, word.get()),
        _ => wrong_count(alloc, b"select"),
    }
}

/// The reply to SELECT with this word: a cluster has the one database 0.
fn database(alloc: Global, word: &[u8]) -> Result<Reply, Memory>
    ensures { IfOk result (λ r. r ≡ database_reply (number word.now)) }
{
    let Some(number) = read_number(word) else {
        return not_an_integer(alloc);
    };
    if number == 0 {
        return ok(alloc);
    }
    if number < LEAST_DATABASE || number > MOST_DATABASE {
        return Reply::error(
            alloc,
            b"ERR value is out of range, value must between -2147483648 and 2147483647",
        );
    }
    Reply::error(alloc, b"ERR SELECT is not allowed in cluster mode")
}

/// The reply to ECHO with these further words.
pub(crate) fn echo(alloc: Global, words: &[Text]) -> Result<Reply, Memory>
    ensures { IfOk result (λ r. r ≡ echo_reply words.now) }
{
    match words {
        [text] => Ok(Reply::Bulk(text.try_copy(alloc)?)),
        _ => wrong_count(alloc, b"echo"),
    }
}

/// The reply to the command of this name, which stands alone, with these further words.
pub(crate) fn alone(alloc: Global, name: &[u8], words: &[Text]) -> Result<Reply, Memory>
    requires { length name.now ≤ 100 }
    ensures { IfOk result (λ r. r ≡ alone_reply name.now words.now) }
{
    match words {
        [] => ok(alloc),
        _ => wrong_count(alloc, name),
    }
}

/// The reply to AUTH with these further words: there is no user but `default`, whose password is any.
pub(crate) fn auth(alloc: Global, words: &[Text]) -> Result<Reply, Memory>
    ensures { IfOk result (λ r. r ≡ auth_reply words.now) }
{
    match words {
        [] => wrong_count(alloc, b"auth"),
        [_] => no_password(alloc),
        [user, _] => user_reply(alloc, user.get()),
        _ => Reply::error(alloc, b"ERR syntax error"),
    }
}

fn no_password(alloc: Global) -> Result<Reply, Memory>
    ensures { IfOk result (λ r. r ≡ no_password) }
{
    Reply::error(
        alloc,
        b"ERR AUTH <password> called without any password configured for the default user. \
Are you sure your configuration is correct?",
    )
}

fn user_reply(alloc: Global, user: &[u8]) -> Result<Reply, Memory>
    ensures { IfOk result (λ r. r ≡ user_reply user.now) }
{
    if is(user, b"default") {
        ok(alloc)
    } else {
        wrong_password(alloc)
    }
}
