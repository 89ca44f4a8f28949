//! The keys of open slots, as they are counted over the connections of a survey.
use byte_streams::{ByteIn, ByteOut};
use cluster_views::SurveyFault;
use key_slots::{NodeId, Slot};
use server_links::Link;
use server_phases::KeyCounts;
use slot_key_counts::keys_at;
use std::alloc::Global;

/// Counts keys over connections, n0's first.
#[derive(Drop)]
pub(crate) struct LinkCounts<I: Drop, O: Drop> {
    alloc: Global,
    links: Vec<Link<I, O>>,
}

impl<I: ByteIn + Drop, O: ByteOut + Drop> LinkCounts<I, O> {
    pub(crate) fn new(alloc: Global, links: Vec<Link<I, O>>) -> Self {
        Self { alloc, links }
    }
}

impl<I: ByteIn + Drop, O: ByteOut + Drop> KeyCounts for LinkCounts<I, O> {
    ghost use Rattle.std.specs.Prelude.{Ok, Err};
    ghost use Rattle.slot_key_counts.specs.Counting.{AsksCount};
    ghost use Rattle.cluster_inspection.specs.Counting.{IsCountedAt};

    ghost counts = { λ c n s k d.
        IsCountedAt (AsksCount (record { gave = I.gave; took = O.took }) s) n (Ok k) c.links.items d.links.items };

    ghost fails = { λ c n s e d.
        IsCountedAt (AsksCount (record { gave = I.gave; took = O.took }) s) n (Err e) c.links.items d.links.items };

    fn keys(&mut self, node: NodeId, slot: Slot) -> Result<u32, SurveyFault> {
        if usize::from(node.get()) >= self.links.len() {
            return Err(SurveyFault::NoAnswer(node));
        }
        match keys_at(self.alloc, &mut self.links, node, slot) {
            Ok(keys) => Ok(keys),
            Err(fault) => Err(fault),
        }
    }
}
