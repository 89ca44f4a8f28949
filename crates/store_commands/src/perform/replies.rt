//! The replies of commands.
ghost use Rattle.std.specs.Prelude.{◌≡◌, ℕ, ◌≤◌, length, IfOk, OnErr, IfSome, option_map};
ghost use Rattle.store_commands.specs.Replies.{ok, wrong_kind, not_integer, no_such_key, count, bulk, refusal};
ghost use Rattle.store_commands.specs.Replies.{text_too_long, collection_too_long, collection_reply, is_error};
ghost use Rattle.resp2_wire.specs.declared.reply.Reply.TheVariants as reply;
ghost use Rattle.store_commands.specs.Memory.{IsMade};

use byte_texts::Text;
use resp2_wire::Reply;
use std::alloc::{AllocError, Global};
use typed_values::ValueFault;

/// Whether the reply is an error, after which nothing is to be done.
pub(crate) fn is_error(reply: &Reply) -> bool
    ensures { result ≡ is_error reply.now }
{
    matches!(reply, Reply::Error(_))
}

#[tactic(auto, using(crate::proofs::Memory::anyhow))]
pub(crate) fn ok(alloc: Global) -> Result<Reply, AllocError>
    ensures reply { IfOk result (λ r. r ≡ ok) }
    ensures memory { OnErr result (IsMade ok) }
{
    Reply::simple(alloc, b"OK")
}

#[tactic(auto, using(crate::proofs::Memory::anyhow))]
pub(crate) fn wrong_kind(alloc: Global) -> Result<Reply, AllocError>
    ensures reply { IfOk result (λ r. r ≡ wrong_kind) }
    ensures memory { OnErr result (IsMade wrong_kind) }
{
    Reply::error(
        alloc,
        b"WRONGTYPE Operation against a key holding the wrong kind of value",
    )
}

#[tactic(auto, using(crate::proofs::Memory::anyhow))]
pub(crate) fn not_integer(alloc: Global) -> Result<Reply, AllocError>
    ensures reply { IfOk result (λ r. r ≡ not_integer) }
    ensures memory { OnErr result (IsMade not_integer) }
{
    Reply::error(alloc, b"ERR value is not an integer or out of range")
}

#[tactic(auto, using(crate::proofs::Memory::anyhow))]
pub(crate) fn no_such_key(alloc: Global) -> Result<Reply, AllocError>
    ensures reply { IfOk result (λ r. r ≡ no_such_key) }
    ensures memory { OnErr result (IsMade no_such_key) }
{
    Reply::error(alloc, b"ERR no such key")
}

/// Why an operation on a text cannot be done.
pub(crate) fn text_refusal(alloc: Global, fault: ValueFault) -> Result<Reply, AllocError>
    ensures reply { IfOk result (λ r. r ≡ refusal text_too_long fault) }
    ensures memory { OnErr result (IsMade (refusal text_too_long fault)) }
{
    refusal(
        alloc,
        b"ERR string exceeds the limit of 1048576 bytes",
        fault,
    )
}

/// Why an operation on a collection cannot be done.
pub(crate) fn collection_refusal(alloc: Global, fault: ValueFault) -> Result<Reply, AllocError>
    ensures reply { IfOk result (λ r. r ≡ refusal collection_too_long fault) }
    ensures memory { OnErr result (IsMade (refusal collection_too_long fault)) }
{
    refusal(
        alloc,
        b"ERR collection exceeds the limit of 1048576 elements",
        fault,
    )
}

#[tactic(auto, using(crate::proofs::Memory::anyhow))]
fn refusal(alloc: Global, too_long: &[u8], fault: ValueFault) -> Result<Reply, AllocError>
    requires { length too_long.now ≤ 1048576 }
    ensures reply { IfOk result (λ r. r ≡ refusal (reply.Error too_long.now) fault) }
    ensures memory { OnErr result (IsMade (refusal (reply.Error too_long.now) fault)) }
{
    match fault {
        ValueFault::WrongType => wrong_kind(alloc),
        ValueFault::NotInteger => not_integer(alloc),
        ValueFault::Overflow => Reply::error(alloc, b"ERR increment or decrement would overflow"),
        ValueFault::TooLong => Reply::error(alloc, too_long),
        ValueFault::Memory => Err(AllocError),
    }
}

pub(crate) fn count(number: usize) -> Reply
    requires { number ≤ 1048576 }
    ensures { result ≡ count number }
{
    Reply::count(number as u32)
}

/// The count, or why there is none.
pub(crate) fn count_or_refusal(
    alloc: Global,
    number: Result<usize, ValueFault>,
) -> Result<Reply, AllocError>
    requires { IfOk number (λ n. n ≤ 1048576) }
    ensures reply { IfOk result (λ r. r ≡ collection_reply count number) }
    ensures memory { OnErr result (IsMade (collection_reply count number)) }
{
    match number {
        Ok(number) => Ok(count(number)),
        Err(fault) => collection_refusal(alloc, fault),
    }
}

/// A copy of the element, or that there is none.
pub(crate) fn element(alloc: Global, text: Option<&Text>) -> Result<Reply, AllocError>
    ensures reply { IfOk result (λ r. r ≡ bulk (option_map (λ t. t.now) text.entry)) }
    ensures memory { OnErr result (IsMade (bulk (option_map (λ t. t.now) text.entry))) }
{
    match text {
        Some(text) => Ok(Reply::Bulk(text.try_copy(alloc)?)),
        None => Ok(Reply::Null),
    }
}
