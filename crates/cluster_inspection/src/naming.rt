//! The names of the servers whose nodes a plan mentions.
ghost use Rattle.std.specs.Prelude.{◌≡◌, ◌<◌, ◌≤◌, ◌++◌, ◌∷◌, [], ℕ, IfOk, MatchOption, MatchResult, Ok};
ghost use Rattle.std.specs.Prelude.{cond, false, length, slice_index_or, true};
ghost use Rattle.node_names.specs.Names.{are_below};
ghost use Rattle.plan_language.specs.Lines.{IsListed};
ghost use Rattle.plan_language.specs.Texts.{any_plan_of_text, plan_text};
ghost use Rattle.cluster_inspection.specs.Mentioned.{mentions};
ghost use Rattle.cluster_inspection.specs.Naming.{AreUnnamed, IsUnlisted, IsUnnamed, name_at, named, names_of};

use crate::mentioned::marks_of;
use crate::naming_fault::NamingFault;
use key_slots::{MAX_NODES, NodeId};
use node_names::{NodeName, NodeNames, has_name};
use plan_language::{Line, Plan};
use server_commands::ServerBook;
use std::alloc::Global;

/// The plan with the names of the nodes that it mentions, as the servers of this book have them, in place of those that
/// it lists; one whose text lists no names stays as it is. The lowest node at fault decides, and of these the ones
/// without a server come last. What the plan is written as is read back.
pub fn named_plan(plan: Plan, book: &ServerBook) -> Result<Plan, NamingFault>
    ensures named { MatchResult result (λ p. p ≡ named book.now plan) (IsUnnamed book.now plan) }
    ensures listed { IfOk result IsListed }
    ensures read_back { IfOk result (λ p. any_plan_of_text (plan_text p) ≡ Ok p) }
{
    if plan.names().is_none() {
        reads_back(&plan);
        return Ok(plan);
    }
    let names = names_of(plan.allocator(), plan.lines(), book)?;
    let plan = plan.with_names(names);
    reads_back(&plan);
    Ok(plan)
}

/// What a plan is written as that lists each node which it mentions is read back.
fn reads_back(plan: &Plan)
    requires { IsListed plan.now }
    ensures { any_plan_of_text (plan_text plan.now) ≡ Ok plan.now }
{
    // A plan's lines are within its limits.
    let _lines = plan.lines();
}

/// The nodes that the lines mention, with the names of their servers.
fn names_of(alloc: Global, lines: &[Line], book: &ServerBook) -> Result<NodeNames, NamingFault>
    ensures named { MatchResult result (λ n. n ≡ names_of book.now lines.now) (AreUnnamed book.now lines.now) }
    ensures none_beyond { IfOk result
        (λ _. (m : ℕ) → length book.now ≤ m → m < 255 → mentions lines.now m ≡ false) }
{
    let marks = marks_of(lines);
    let mut names = NodeNames::new(alloc);
    for number in 0..book.nodes() {
        let is_mentioned = marks[usize::from(number)];
        put_if(is_mentioned, &mut names, book, NodeId::of(number))?;
    }
    let _listed = names.get();
    match first_from(&marks, book.nodes()) {
        None => Ok(names),
        Some(node) => Err(NamingFault::NoServer(node)),
    }
}

/// Puts the node after those that are there, where it is mentioned.
fn put_if(
    is_mentioned: bool,
    names: &mut NodeNames,
    book: &ServerBook,
    node: NodeId,
) -> Result<(), NamingFault>
    requires server { node < length book.now }
    requires above { are_below names.old node ≡ true }
    ensures { MatchResult result
        (λ _. names.new ≡ names.old ++ cond is_mentioned ((node, name_at book.now node) ∷ []) [])
        (λ f. (is_mentioned ≡ true) × IsUnlisted book.now names.old node f) }
{
    if is_mentioned {
        put_node(names, book, node)
    } else {
        Ok(())
    }
}

/// Puts the node with the name of its server after those that are there.
fn put_node(names: &mut NodeNames, book: &ServerBook, node: NodeId) -> Result<(), NamingFault>
    requires server { node < length book.now }
    requires above { are_below names.old node ≡ true }
    ensures { MatchResult result (λ _. names.new ≡ names.old ++ (node, name_at book.now node) ∷ [])
        (IsUnlisted book.now names.old node) }
{
    let listed = names.get();
    let Some(name) = NodeName::parse(book.server(node).name.get()) else {
        return Err(NamingFault::NoName(node));
    };
    if has_name(listed, name.get()) {
        return Err(NamingFault::SameName(node));
    }
    names.push(node, name)?;
    Ok(())
}

/// The first marked node from this number on.
fn first_from(marks: &[bool; 255], from: u8) -> Option<NodeId>
    ensures { MatchOption result
        ((m : ℕ) → from ≤ m → m < 255 → slice_index_or marks.now m false ≡ false)
        (λ n. (from ≤ n) × (slice_index_or marks.now n false ≡ true)
        × ((m : ℕ) → from ≤ m → m < n → slice_index_or marks.now m false ≡ false)) }
{
    for number in from..MAX_NODES {
        if marks[usize::from(number)] {
            return Some(NodeId::of(number));
        }
    }
    None
}
