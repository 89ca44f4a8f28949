//! Dead masters that servers list: one that failed and has no slots is left out, and no other.
use crate::phases::{SOURCE, TARGET, THIRD, view};
use crate::servers::book;
use cluster_survey::masters_of;
use cluster_views::{SurveyFault, survey_of};
use listed_nodes::NodeLines;
use std::alloc::Global;
use std::test::Fail;

/// A replica has its slots.
const GONE: &[u8] =
    b"dddddddddddddddddddddddddddddddddddddddd 127.0.0.1:7003@17003 master,fail - 0 0 4 disconnected\n";

/// Nobody has taken its slot.
const WITH_SLOTS: &[u8] =
    b"dddddddddddddddddddddddddddddddddddddddd 127.0.0.1:7003@17003 master,fail - 0 0 4 disconnected 5\n";

/// It is missed by one server alone.
const SUSPECTED: &[u8] =
    b"dddddddddddddddddddddddddddddddddddddddd 127.0.0.1:7003@17003 master,fail? - 0 0 4 disconnected\n";

/// The list with this line at its end.
fn list(alloc: Global, text: &[u8], line: &[u8]) -> Result<NodeLines, SurveyFault> {
    let mut whole = Vec::from_slice(alloc, text)?;
    whole.extend_from_slice(line)?;
    view(alloc, whole.as_slice())
}

/// How many masters n2's list has with this line.
fn masters_with(alloc: Global, line: &[u8]) -> Result<u8, SurveyFault> {
    let lines = list(alloc, THIRD, line)?;
    let book = masters_of(alloc, lines.get())?;
    Ok(book.nodes())
}

/// What stands against a survey of three servers, of which each lists this line.
fn fault_with(alloc: Global, line: &[u8]) -> Result<Option<SurveyFault>, SurveyFault> {
    let book = book(alloc)?;
    let first = list(alloc, SOURCE, line)?;
    let second = list(alloc, TARGET, line)?;
    let third = list(alloc, THIRD, line)?;
    let Ok(views) = vec![in alloc; first, second, third] else {
        return Err(SurveyFault::Memory);
    };
    match survey_of(alloc, &book, views.as_slice()) {
        Ok(_) => Ok(None),
        Err(fault) => Ok(Some(fault)),
    }
}

#[test]
fn a_dead_master_without_slots_is_no_node(rt: HostRuntime) -> Result<(), Fail> {
    assert!(rt; masters_with(rt.alloc(), GONE)? == 3);
    assert!(rt; masters_with(rt.alloc(), WITH_SLOTS)? == 4);
    assert!(rt; masters_with(rt.alloc(), SUSPECTED)? == 4);
    Ok(())
}

#[test]
fn a_dead_master_without_slots_is_passed_over(rt: HostRuntime) -> Result<(), Fail> {
    assert!(rt; fault_with(rt.alloc(), GONE)?.is_none());
    assert!(rt; fault_with(rt.alloc(), WITH_SLOTS)?.is_some());
    assert!(rt; fault_with(rt.alloc(), SUSPECTED)?.is_some());
    Ok(())
}
