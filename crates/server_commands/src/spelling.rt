ghost use Rattle.std.specs.Prelude.{◌≡◌, ◌<◌, ◌∷◌, [], IfOk, length};
ghost use Rattle.server_commands.specs.Servers.{server_at};
ghost use Rattle.server_commands.specs.Spelling.{Names, migrate_words, request_of, setslot_words, words_of};

use crate::book::{Server, ServerBook};
use crate::credentials::Credentials;
use crate::listings::listing_words;
use crate::words::{put, put_login, put_number, put_text, put_texts};
use byte_texts::{Memory, Text, TextList};
use cluster_admin::AdminCommand;
use key_slots::{NodeId, Slot};
use resp2_wire::encode_request;
use std::alloc::Global;

/// The request of CLUSTER NODES.
pub const NODES_REQUEST: &[u8] = b"*2\r\n$7\r\nCLUSTER\r\n$5\r\nNODES\r\n";

/// The bytes of the command. A MIGRATE waits at most so many milliseconds for its target, and shows it the credentials
/// where there are some.
pub fn request_of(
    alloc: Global,
    book: &ServerBook,
    timeout: u32,
    credentials: &Option<Credentials>,
    command: &AdminCommand,
) -> Result<Vec<u8>, Memory>
    requires { Names (length book.now) command.now }
    ensures { IfOk result (λ v. v.items ≡ request_of book.now timeout credentials.now command.now) }
{
    let words = words_of(alloc, book, timeout, credentials, command)?;
    encode_request(alloc, words.get())
}

/// The words of the command.
fn words_of(
    alloc: Global,
    book: &ServerBook,
    timeout: u32,
    credentials: &Option<Credentials>,
    command: &AdminCommand,
) -> Result<TextList, Memory>
    requires { Names (length book.now) command.now }
    ensures { IfOk result (λ l. l ≡ words_of book.now timeout credentials.now command.now) }
{
    match command {
        AdminCommand::Importing(slot, source) => {
            setslot_by(alloc, *slot, b"IMPORTING", &book.server(*source).name)
        }
        AdminCommand::Migrating(slot, target) => {
            setslot_by(alloc, *slot, b"MIGRATING", &book.server(*target).name)
        }
        AdminCommand::SetNode(slot, owner) => {
            setslot_by(alloc, *slot, b"NODE", &book.server(*owner).name)
        }
        AdminCommand::Stable(slot) => setslot(alloc, *slot, b"STABLE"),
        AdminCommand::KeysIn(slot, count) => listing_words(alloc, *slot, u32::from(*count)),
        AdminCommand::Migrate(keys, target) => {
            migrate(
                alloc,
                book.server(*target),
                timeout,
                credentials,
                keys.get(),
            )
        }
    }
}

/// `CLUSTER SETSLOT slot HOW`
fn setslot(alloc: Global, slot: Slot, how: &[u8]) -> Result<TextList, Memory>
    requires { length how.now < 16 }
    ensures { IfOk result (λ l. l ≡ setslot_words slot (how.now ∷ [])) }
{
    let mut words = TextList::new(alloc);
    put(&mut words, alloc, b"CLUSTER")?;
    put(&mut words, alloc, b"SETSLOT")?;
    put_number(&mut words, alloc, u32::from(slot.get()))?;
    put(&mut words, alloc, how)?;
    Ok(words)
}

/// `CLUSTER SETSLOT slot HOW name`
fn setslot_by(alloc: Global, slot: Slot, how: &[u8], name: &Text) -> Result<TextList, Memory>
    requires { length how.now < 16 }
    ensures { IfOk result (λ l. l ≡ setslot_words slot (how.now ∷ name.now ∷ [])) }
{
    let mut words = setslot(alloc, slot, how)?;
    put_text(&mut words, alloc, name)?;
    Ok(words)
}

/// `MIGRATE host port "" 0 timeout [AUTH password | AUTH2 user password] KEYS key ..`
fn migrate(
    alloc: Global,
    target: &Server,
    timeout: u32,
    credentials: &Option<Credentials>,
    keys: &[Text],
) -> Result<TextList, Memory>
    ensures { IfOk result (λ l. l ≡ migrate_words target.now timeout credentials.now keys.now) }
{
    let mut words = TextList::new(alloc);
    put(&mut words, alloc, b"MIGRATE")?;
    put_text(&mut words, alloc, &target.host)?;
    put_number(&mut words, alloc, u32::from(target.port))?;
    put(&mut words, alloc, b"")?;
    put(&mut words, alloc, b"0")?;
    put_number(&mut words, alloc, timeout)?;
    put_login(&mut words, alloc, credentials)?;
    put(&mut words, alloc, b"KEYS")?;
    put_texts(&mut words, alloc, keys)?;
    Ok(words)
}
