//! Keys that lie at nodes which do not own their slots, at three servers.
use crate::phases::{SOURCE, TARGET, survey};
use cluster_views::{ServerSurvey, SurveyFault};
use key_slots::{NodeId, Slot};
use server_phases::{KeyCounts, put_stranded_lines};
use std::alloc::Global;
use std::test::Fail;

/// The keys that each node holds of each slot, as slot, node and count, but for slots of which it holds none. n0 owns
/// slots 5 and 4000, n1 slot 5461, n2 slot 16383, and slots 24 and 30 are open.
const HELD: &[(u16, u8, u32)] = &[
    (5, 0, 100),
    (5, 1, 3),
    (5, 2, 1),
    (24, 0, 51),
    (24, 1, 52),
    (30, 2, 7),
    (4000, 0, 4),
    (5461, 0, 4294967295),
    (16383, 2, 9),
];

const LINES: &[u8] = b"\
        slot 5: 3 keys at n1, and n0 owns it; a plan with 'move 5 from n0 to n1 by 10' brings them together\n\
        slot 5: 1 keys at n2, and n0 owns it; a plan with 'move 5 from n0 to n2 by 10' brings them together\n\
        slot 5461: 4294967295 keys at n0, and n1 owns it; \
        a plan with 'move 5461 from n1 to n0 by 10' brings them together\n";

/// Tells the keys that are held, up to so many questions. The next one has no answer.
#[derive(Drop)]
struct HeldKeys {
    answers: u32,
}

impl KeyCounts for HeldKeys {
    ghost counts = { λ x node slot keys y. Unit {0} };

    ghost fails = { λ x node slot fault y. Unit {0} };

    fn keys(&mut self, node: NodeId, slot: Slot) -> Result<u32, SurveyFault> {
        if self.answers == 0 {
            return Err(SurveyFault::NoAnswer(node));
        }
        self.answers -= 1;
        Ok(held(node, slot))
    }
}

/// How many keys of the slot the node holds.
fn held(node: NodeId, slot: Slot) -> u32 {
    for &(of, at, keys) in HELD {
        if of == slot.get() && at == node.get() {
            return keys;
        }
    }
    0
}

fn lines_of(
    alloc: Global,
    survey: &ServerSurvey,
    counts: &mut HeldKeys,
) -> Result<Vec<u8>, SurveyFault> {
    let mut out = Vec::new(alloc);
    put_stranded_lines(&mut out, survey, counts)?;
    Ok(out)
}

#[test]
fn stranded_keys_are_told(rt: HostRuntime) -> Result<(), Fail> {
    let survey = survey(rt.alloc(), SOURCE, TARGET)?;
    let mut counts = HeldKeys { answers: 40000 };
    let lines = lines_of(rt.alloc(), &survey, &mut counts)?;
    assert!(rt; lines.as_slice() == LINES);
    assert!(rt; counts.answers == 40000 - 2 * (16384 - 2));
    Ok(())
}

#[test]
fn a_node_that_is_silent_is_told(rt: HostRuntime) -> Result<(), Fail> {
    let survey = survey(rt.alloc(), SOURCE, TARGET)?;
    let mut counts = HeldKeys { answers: 13 };
    let fault = lines_of(rt.alloc(), &survey, &mut counts);
    assert!(rt; matches!(&fault, Err(SurveyFault::NoAnswer(node)) if node.get() == 2));
    Ok(())
}
