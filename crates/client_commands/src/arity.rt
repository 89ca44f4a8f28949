//! Arguments by their number: none, one, two, some, or pairs. They are taken over, and not copied.
ghost use Rattle.std.specs.Prelude.{◌≡◌, ℕ, List, [], ◌∷◌, Some, length, ◌+◌, ◌%◌, ◌≤◌, ◌<◌, IfOk, IfErr};
ghost use Rattle.std.specs.Prelude.{IfSome, IfNone};
ghost use Rattle.byte_texts.specs.Outcomes.{UnlessMemory, RefusedUnlessMemory};
ghost use Rattle.client_commands.specs.Faults.{is_memory};
ghost use Rattle.client_commands.specs.Commands.{of_none, of_one, of_two, of_some, of_pairs, paired};

use crate::arguments::Arguments;
use crate::fault::CommandFault;
use byte_texts::{Text, TextList};
use std::alloc::{AllocError, Global};
use typed_values::PairList;

/// The first text, and the others in their order, or None where there is no text.
pub(crate) fn take_first(mut texts: Vec<Text>) -> Option<(Text, Vec<Text>)>
    ensures some { IfSome result (λ p. texts.items ≡ p.0 ∷ p.1.items) }
    ensures none { IfNone result (texts.items ≡ []) }
{
    if texts.is_empty() {
        return None;
    }
    let first = texts.remove(0);
    Some((first, texts))
}

/// The command, where there is no further argument.
pub(crate) fn none_of<C: Drop>(command: C, rest: &[Text]) -> Result<C, CommandFault>
    ensures { UnlessMemory is_memory (λ c. c) (of_none command rest.now) result }
{
    if rest.is_empty() {
        Ok(command)
    } else {
        Err(CommandFault::ArgumentCount)
    }
}

/// The one argument.
pub(crate) fn one_of(rest: Vec<Text>) -> Result<Text, CommandFault>
    ensures ok { IfOk result (λ t. rest.items ≡ t ∷ []) }
    ensures err { IfErr result (RefusedUnlessMemory is_memory (of_one (λ t. t) rest.items)) }
{
    let Some((argument, others)) = take_first(rest) else {
        return Err(CommandFault::ArgumentCount);
    };
    if !others.is_empty() {
        return Err(CommandFault::ArgumentCount);
    }
    Ok(argument)
}

/// The two arguments.
pub(crate) fn two_of(rest: Vec<Text>) -> Result<(Text, Text), CommandFault>
    ensures ok { IfOk result (λ t. rest.items ≡ t.0 ∷ t.1 ∷ []) }
    ensures err { IfErr result
        (RefusedUnlessMemory {A = List ℕ × List ℕ} is_memory (of_two (λ a b. (a, b)) rest.items)) }
{
    let Some((first, others)) = take_first(rest) else {
        return Err(CommandFault::ArgumentCount);
    };
    Ok((first, one_of(others)?))
}

/// The arguments, of which there is one at least.
pub(crate) fn some_of(rest: Vec<Text>) -> Result<TextList, CommandFault>
    ensures ok { IfOk result (λ l. (l ≡ rest.items) × (0 < length l)) }
    ensures err { IfErr result (RefusedUnlessMemory is_memory (of_some (λ l. l) rest.items)) }
{
    if rest.is_empty() {
        return Err(CommandFault::ArgumentCount);
    }
    Ok(TextList::from_vec(rest))
}

/// The arguments, which are keys, one at least.
pub(crate) fn keys_of(arguments: Vec<Text>) -> Result<Arguments, CommandFault>
    requires { length arguments.items ≤ 1024 }
    ensures ok { IfOk result (λ l. (l ≡ arguments.items) × (0 < length l)) }
    ensures err { IfErr result (RefusedUnlessMemory is_memory (of_some (λ l. l) arguments.items)) }
{
    if arguments.is_empty() {
        return Err(CommandFault::ArgumentCount);
    }
    Ok(Arguments::from_vec(arguments))
}

/// The arguments two by two, where they are pairs, one at least.
pub(crate) fn pairs_of(alloc: Global, arguments: Vec<Text>) -> Result<PairList, CommandFault>
    ensures ok { IfOk result (λ ps. paired arguments.items ≡ Some ps) }
    ensures some { IfOk result (λ ps. 0 < length ps) }
    ensures limit { IfOk result (λ ps. length ps ≤ length arguments.items) }
    ensures err { IfErr result (RefusedUnlessMemory is_memory (of_pairs (λ ps. ps) arguments.items)) }
{
    if arguments.as_slice().is_empty() {
        return Err(CommandFault::ArgumentCount);
    }
    if arguments.as_slice().len() % 2 != 0 {
        return Err(CommandFault::ArgumentCount);
    }
    Ok(in_pairs(alloc, arguments)?)
}

fn in_pairs(alloc: Global, arguments: Vec<Text>) -> Result<PairList, AllocError>
    requires { length arguments.items % 2 ≡ 0 }
    ensures pairs { IfOk result (λ ps. paired arguments.items ≡ Some ps) }
    ensures count { IfOk result (λ ps. length ps + length ps ≡ length arguments.items) }
{
    let mut pairs = Vec::with_capacity(alloc, arguments.len() / 2)?;
    let mut name = None;
    for argument in arguments {
        match name.take() {
            None => name = Some(argument),
            Some(first) => pairs.push((first, argument))?,
        }
    }
    Ok(PairList::from_vec(pairs))
}
