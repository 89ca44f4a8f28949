//! The servers of a book, which are looked up by their IDs.
ghost use Rattle.std.specs.Prelude.{◌≡◌, ◌<◌, ◌≤◌, ℕ, List, None, Some, IfOk, IfSome, OnOk, if◌then◌else◌, length};
ghost use Rattle.std.specs.Option.{option_or};
ghost use Rattle.byte_texts.specs.Words.{is};
ghost use Rattle.cluster_views.specs.Naming.{AreNumbersOf, number_at};
ghost use Rattle.cluster_views.specs.Views.{number_of};
ghost use Rattle.server_commands.specs.Servers.{server_at};

use byte_texts::Memory;
use key_slots::NodeId;
use server_commands::{Server, ServerBook};
use std::alloc::Global;
use std::collections::BTreeMap;
use std::marker::Model;

/// A book of servers, and their numbers by their IDs: contracts see the servers. A look-up goes down a tree of the IDs,
/// and not over all servers.
pub(crate) struct NamedBook<'b> {
    book: &'b ServerBook,
    numbers: BTreeMap<Vec<u8>, NodeId>,
}

/// Written out, so that a proof sees one call where such a value is dropped.
impl Drop for NamedBook<'_> {
    fn drop(self) {
        let Self { book: _, numbers } = self;
        drop(numbers);
    }
}

impl<'b> Model for NamedBook<'b> {
    ghost use Rattle.std.specs.Prelude.{List};
    ghost use Rattle.cluster_views.specs.Naming.{AreNumbersOf};
    ghost use Rattle.server_commands.specs.declared.book.Server.{Server};

    ghost Value = { List Server };

    ghost view = { λ n. n.book.now };

    ghost invariant = { λ n. AreNumbersOf n.book.now n.numbers };
}

impl<'b> NamedBook<'b> {
    /// The book's servers, which are not copied.
    pub(crate) fn of(alloc: Global, book: &'b ServerBook) -> Result<Self, Memory>
        ensures { IfOk result (λ b. b ≡ book.entry.now) }
    {
        let numbers = numbers_of(alloc, book)?;
        Ok(Self { book, numbers })
    }

    /// How many servers there are.
    pub(crate) fn nodes(&self) -> u8
        ensures value { result ≡ length self.now }
        ensures least { 1 ≤ result }
        ensures most { result ≤ 255 }
    {
        self.book.nodes()
    }

    /// The server of this number.
    pub(crate) fn server(&self, node: NodeId) -> &Server
        requires { node < length self.now }
        ensures { result.now ≡ server_at self.now node }
    {
        self.book.server(node)
    }

    /// The number of the server with this ID.
    pub(crate) fn number_of(&self, name: &[u8]) -> Option<NodeId>
        ensures value { result ≡ number_of self.now name.now }
        ensures within { IfSome result (λ m. m < length self.now) }
    {
        let node = self.numbers.get(name)?;
        Some(*node)
    }
}

/// The servers' numbers at their IDs.
fn numbers_of(alloc: Global, book: &ServerBook) -> Result<BTreeMap<Vec<u8>, NodeId>, Memory>
    ensures { IfOk result (AreNumbersOf book.now) }
{
    let mut numbers = BTreeMap::new(alloc);
    for number in 0..book.nodes() {
        let node = NodeId::of(number);
        note(alloc, &mut numbers, book.server(node).name.get(), node)?;
    }
    Ok(numbers)
}

/// Puts the number at the ID, where none stands there yet.
fn note(
    alloc: Global,
    numbers: &mut BTreeMap<Vec<u8>, NodeId>,
    name: &[u8],
    node: NodeId,
) -> Result<(), Memory>
    ensures { OnOk result ((other : List ℕ) → number_at numbers.new other
        ≡ option_or (number_at numbers.old other) (if is other name.now then Some node else None)) }
{
    if numbers.get(name).is_none() {
        let key = Vec::from_slice(alloc, name)?;
        numbers.insert(key, node)?;
    }
    Ok(())
}
