use crate::plan_texts::{rebalance_text, reshard_text};
use key_slots::NodeId;
use reshard_planner::PlannerFault;
use std::process::Abort;

/// Whether the text is that of a plan with these lines.
fn has_lines(text: &Result<Vec<u8>, PlannerFault>, wanted: &[u8]) -> bool {
    match text {
        Ok(text) => text.as_slice() == wanted,
        Err(_) => false,
    }
}

fn is_fault(text: &Result<Vec<u8>, PlannerFault>, wanted: PlannerFault) -> bool {
    match text {
        Ok(_) => false,
        Err(fault) => *fault == wanted,
    }
}

#[test]
fn slots_of_sources_go_to_a_target(rt: HostRuntime) {
    let (n0, n1, n2) = (NodeId::of(0), NodeId::of(1), NodeId::of(2));
    let text = reshard_text(rt.alloc(), 3, &[n0, n2], n1, 100);
    assert!(rt;
        has_lines(
            &text,
            b"reshard-plan 1\nmove 0-49 from n0 to n1 by 10\n\
        move 10923-10972 from n2 to n1 by 10\nend\n"
        )
    );
    let text = reshard_text(rt.alloc(), 3, &[n2, n0, n2], n1, 3);
    assert!(rt;
        has_lines(
            &text,
            b"reshard-plan 1\nmove 0 from n0 to n1 by 10\n\
        move 10923-10924 from n2 to n1 by 10\nend\n"
        )
    );
}

#[test]
fn reshards_that_are_refused(rt: HostRuntime) {
    let (n0, n1) = (NodeId::of(0), NodeId::of(1));
    let text = reshard_text(rt.alloc(), 3, &[n1], n1, 6000);
    assert!(rt; is_fault(&text, PlannerFault::TooMany));
    let text = reshard_text(rt.alloc(), 3, &[n1], n1, 1);
    assert!(rt; is_fault(&text, PlannerFault::TargetIsSource));
    let text = reshard_text(rt.alloc(), 1, &[], n0, 0);
    assert!(rt; is_fault(&text, PlannerFault::NoSource));
}

#[test]
fn weights_of_two_nodes(rt: HostRuntime) {
    let text = rebalance_text(rt.alloc(), 2, &[51, 49], 2, false);
    assert!(rt;
        has_lines(
            &text,
            b"reshard-plan 1\nmove 8192-8355 from n1 to n0 by 10\nend\n"
        )
    );
    let text = rebalance_text(rt.alloc(), 2, &[51, 49], 3, false);
    assert!(rt; has_lines(&text, b"reshard-plan 1\nend\n"));
}

#[test]
fn weights_of_more_nodes(rt: HostRuntime) {
    let text = rebalance_text(rt.alloc(), 3, &[2, 1, 1], 2, false);
    assert!(rt;
        has_lines(
            &text,
            b"reshard-plan 1\nmove 5461-6826 from n1 to n0 by 10\n\
        move 10923-12287 from n2 to n0 by 10\nend\n"
        )
    );
    let text = rebalance_text(rt.alloc(), 3, &[1, 1, 1, 1], 2, true);
    assert!(rt;
        has_lines(
            &text,
            b"reshard-plan 1\nmove 0-1364 from n0 to n3 by 10\n\
        move 5461-6826 from n1 to n3 by 10\nmove 10923-12287 from n2 to n3 by 10\nend\n"
        )
    );
    let text = rebalance_text(rt.alloc(), 3, &[0, 0, 0], 2, false);
    assert!(rt; is_fault(&text, PlannerFault::NoWeight));
}
