//! Open slots of three servers: how they are printed, and what closes them.
ghost use Rattle.std.specs.Prelude.{◌≡◌, IfOk, length};

use crate::servers::book;
use byte_texts::Memory;
use cluster_views::{ServerSurvey, SurveyFault, Surveyed, survey_of};
use key_slots::{NodeId, Slot};
use listed_nodes::{NodeLines, nodes_in};
use plan_language::{Line, Plan, print};
use server_phases::{
    KeyCounts, ServerPhase, next_open, open_survey, phase_at, put_phase_lines, resumed_plan,
};
use std::alloc::Global;
use std::test::Fail;

/// What n0, n1 and n2 answer to CLUSTER NODES while slot 24 goes from n0 to n1 and slot 30 does too, of which n1 was
/// told.
pub(crate) const SOURCE: &[u8] = b"\
        aaaaaaaaaaaaaaaaaaaaaaaaaaaaaaaaaaaaaaaa 127.0.0.1:7000@17000 myself,master - 0 0 1 connected \
        0-29 31-5460 [24->-bbbbbbbbbbbbbbbbbbbbbbbbbbbbbbbbbbbbbbbb] [30->-bbbbbbbbbbbbbbbbbbbbbbbbbbbbbbbbbbbbbbbb]\n\
        bbbbbbbbbbbbbbbbbbbbbbbbbbbbbbbbbbbbbbbb 127.0.0.1:7001@17001 master - 0 0 2 connected 30 5461-10922\n\
        cccccccccccccccccccccccccccccccccccccccc 127.0.0.1:7002@17002 master - 0 0 3 connected 10923-16383\n";

pub(crate) const TARGET: &[u8] = b"\
        aaaaaaaaaaaaaaaaaaaaaaaaaaaaaaaaaaaaaaaa 127.0.0.1:7000@17000 master - 0 0 1 connected 0-29 31-5460\n\
        bbbbbbbbbbbbbbbbbbbbbbbbbbbbbbbbbbbbbbbb 127.0.0.1:7001@17001 myself,master - 0 0 2 connected \
        30 5461-10922 [24-<-aaaaaaaaaaaaaaaaaaaaaaaaaaaaaaaaaaaaaaaa]\n\
        cccccccccccccccccccccccccccccccccccccccc 127.0.0.1:7002@17002 master - 0 0 3 connected 10923-16383\n";

pub(crate) const THIRD: &[u8] = b"\
        aaaaaaaaaaaaaaaaaaaaaaaaaaaaaaaaaaaaaaaa 127.0.0.1:7000@17000 master - 0 0 1 connected 0-5460\n\
        bbbbbbbbbbbbbbbbbbbbbbbbbbbbbbbbbbbbbbbb 127.0.0.1:7001@17001 master - 0 0 2 connected 5461-10922\n\
        cccccccccccccccccccccccccccccccccccccccc 127.0.0.1:7002@17002 myself,master - 0 0 3 connected 10923-16383\n";

/// n1 has no mark of slot 24.
const FORGOT: &[u8] = b"\
        aaaaaaaaaaaaaaaaaaaaaaaaaaaaaaaaaaaaaaaa 127.0.0.1:7000@17000 master - 0 0 1 connected 0-29 31-5460\n\
        bbbbbbbbbbbbbbbbbbbbbbbbbbbbbbbbbbbbbbbb 127.0.0.1:7001@17001 myself,master - 0 0 2 connected 30 5461-10922\n\
        cccccccccccccccccccccccccccccccccccccccc 127.0.0.1:7002@17002 master - 0 0 3 connected 10923-16383\n";

const LINES: &[u8] = b"\
        slot 24 is migrating from n0 to n1: 51 keys at n0, 52 at n1\n\
        rest of slot 24: drain 24 at n0 to n1 by 10 / setslot 24 node n1 at n1 / setslot 24 node n1 at n0 / \
        setslot 24 node n1 at n2\n\
        slot 30 is told from n0 to n1: 51 keys at n0, 52 at n1\n\
        rest of slot 30: setslot 30 node n1 at n0 / setslot 30 node n1 at n2\n";

const PLAN: &[u8] = b"\
        reshard-plan 3\n\
        setslot 30 node n1 at n0\n\
        setslot 30 node n1 at n2\n\
        drain 24 at n0 to n1 by 100\n\
        setslot 24 node n1 at n1\n\
        setslot 24 node n1 at n0\n\
        setslot 24 node n1 at n2\n\
        move 23 from n0 to n1 by 7\n\
        move 25-29 from n0 to n1 by 7\n\
        move 31-32 from n0 to n1 by 7\n\
        end\n";

const STRANGE: &[u8] = b"\
        slot 24 migrates from n0 to n1, which does not import it: \
        CLUSTER SETSLOT 24 IMPORTING with n0's ID at n1, and survey again\n\
        slot 30 is told from n0 to n1: 51 keys at n0, 52 at n1\n\
        rest of slot 30: setslot 30 node n1 at n0 / setslot 30 node n1 at n2\n";

/// Counts 51 keys at n0, 52 at n1 and so on.
#[derive(Drop)]
struct FixedCounts;

impl KeyCounts for FixedCounts {
    ghost counts = { λ x node slot keys y. Unit {0} };

    ghost fails = { λ x node slot fault y. Unit {0} };

    fn keys(&mut self, node: NodeId, _slot: Slot) -> Result<u32, SurveyFault> {
        Ok(51 + u32::from(node.get()))
    }
}

pub(crate) fn view(alloc: Global, text: &[u8]) -> Result<NodeLines, SurveyFault> {
    match nodes_in(alloc, text)? {
        Some(lines) => Ok(lines),
        None => Err(SurveyFault::Strange(NodeId::of(0))),
    }
}

/// The views of n0, n1 and n2.
pub(crate) fn views(
    alloc: Global,
    first: &[u8],
    second: &[u8],
) -> Result<Vec<NodeLines>, SurveyFault>
    ensures { IfOk result (λ v. length v.items ≡ 3) }
{
    let first = view(alloc, first)?;
    let second = view(alloc, second)?;
    let third = view(alloc, THIRD)?;
    match vec![in alloc; first, second, third] {
        Ok(views) => Ok(views),
        Err(_) => Err(SurveyFault::Memory),
    }
}

/// The survey of the servers with these views.
pub(crate) fn survey(
    alloc: Global,
    first: &[u8],
    second: &[u8],
) -> Result<ServerSurvey, SurveyFault> {
    let book = book(alloc)?;
    let views = views(alloc, first, second)?;
    let Surveyed { survey, epochs } = survey_of(alloc, &book, views.as_slice())?;
    drop(epochs);
    Ok(survey)
}

pub(crate) fn lines_of(alloc: Global, survey: &ServerSurvey) -> Result<Vec<u8>, SurveyFault> {
    let mut out = Vec::new(alloc);
    put_phase_lines(&mut out, survey, &mut FixedCounts)?;
    Ok(out)
}

/// A plan that moves slots 23 to 32 from n0 to n1, 7 keys at a time.
fn moves(alloc: Global) -> Result<Plan, Memory> {
    let mut plan = Plan::empty(alloc);
    plan.push(Line::Move {
        first: Slot::of(23),
        last: Slot::of(32),
        source: NodeId::of(0),
        target: NodeId::of(1),
        batch: 7,
    })?;
    Ok(plan)
}

#[test]
fn open_slots_are_printed(rt: HostRuntime) -> Result<(), Fail> {
    let survey = survey(rt.alloc(), SOURCE, TARGET)?;
    let lines = lines_of(rt.alloc(), &survey)?;
    assert!(rt; lines.as_slice() == LINES);
    assert!(rt; next_open(&survey, Slot::of(25)) == Some(Slot::of(30)));
    Ok(())
}

#[test]
fn strange_slots_are_printed(rt: HostRuntime) -> Result<(), Fail> {
    let survey = survey(rt.alloc(), SOURCE, FORGOT)?;
    let lines = lines_of(rt.alloc(), &survey)?;
    assert!(rt; lines.as_slice() == STRANGE);
    assert!(rt; open_survey(rt.alloc(), &survey).is_err());
    Ok(())
}

#[test]
fn a_closed_slot_has_its_owner(rt: HostRuntime) -> Result<(), Fail> {
    let survey = survey(rt.alloc(), SOURCE, TARGET)?;
    assert!(rt; phase_at(&survey, Slot::of(16383)) == ServerPhase::Closed(NodeId::of(2)));
    Ok(())
}

#[test]
fn a_plan_resumes(rt: HostRuntime) -> Result<(), Fail> {
    let survey = survey(rt.alloc(), SOURCE, TARGET)?;
    let open = open_survey(rt.alloc(), &survey)?;
    let moves = moves(rt.alloc())?;
    let plan = resumed_plan(rt.alloc(), &open, 100, moves.lines())?;
    let text = print(rt.alloc(), &plan)?;
    assert!(rt; text.as_slice() == PLAN);
    Ok(())
}
