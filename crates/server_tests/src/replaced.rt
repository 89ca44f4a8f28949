//! A source that a failover has replaced, and that is back with no slots and with its mark.
ghost use Rattle.std.specs.Prelude.{◌≡◌, IfOk, length};

use crate::phases::{lines_of, view};
use crate::servers::book;
use cluster_views::{SurveyFault, Surveyed, survey_of};
use listed_nodes::NodeLines;
use std::alloc::Global;
use std::test::Fail;

/// What n0, n1 and n2 answer to CLUSTER NODES once n2 has replaced n0, from which slot 24 went to n1.
const SOURCE: &[u8] = b"\
        aaaaaaaaaaaaaaaaaaaaaaaaaaaaaaaaaaaaaaaa 127.0.0.1:7000@17000 myself,master - 0 0 1 connected \
        [24->-bbbbbbbbbbbbbbbbbbbbbbbbbbbbbbbbbbbbbbbb]\n\
        bbbbbbbbbbbbbbbbbbbbbbbbbbbbbbbbbbbbbbbb 127.0.0.1:7001@17001 master - 0 0 2 connected 5461-16383\n\
        cccccccccccccccccccccccccccccccccccccccc 127.0.0.1:7002@17002 master - 0 0 3 connected 0-5460\n";

const TARGET: &[u8] = b"\
        aaaaaaaaaaaaaaaaaaaaaaaaaaaaaaaaaaaaaaaa 127.0.0.1:7000@17000 master - 0 0 1 connected\n\
        bbbbbbbbbbbbbbbbbbbbbbbbbbbbbbbbbbbbbbbb 127.0.0.1:7001@17001 myself,master - 0 0 2 connected \
        5461-16383 [24-<-aaaaaaaaaaaaaaaaaaaaaaaaaaaaaaaaaaaaaaaa]\n\
        cccccccccccccccccccccccccccccccccccccccc 127.0.0.1:7002@17002 master - 0 0 3 connected 0-5460\n";

const SUCCESSOR: &[u8] = b"\
        aaaaaaaaaaaaaaaaaaaaaaaaaaaaaaaaaaaaaaaa 127.0.0.1:7000@17000 master - 0 0 1 connected\n\
        bbbbbbbbbbbbbbbbbbbbbbbbbbbbbbbbbbbbbbbb 127.0.0.1:7001@17001 master - 0 0 2 connected 5461-16383\n\
        cccccccccccccccccccccccccccccccccccccccc 127.0.0.1:7002@17002 myself,master - 0 0 3 connected 0-5460\n";

const LINE: &[u8] = b"\
        n0 has no slots and a mark of slot 24: CLUSTER SETSLOT 24 STABLE at n0, \
        then CLUSTER REPLICATE with n2's ID if n2 has replaced it, and survey again\n";

/// The views of n0, n1 and n2.
fn views(alloc: Global) -> Result<Vec<NodeLines>, SurveyFault>
    ensures { IfOk result (λ v. length v.items ≡ 3) }
{
    let source = view(alloc, SOURCE)?;
    let target = view(alloc, TARGET)?;
    let successor = view(alloc, SUCCESSOR)?;
    match vec![in alloc; source, target, successor] {
        Ok(views) => Ok(views),
        Err(_) => Err(SurveyFault::Memory),
    }
}

#[test]
fn a_replaced_source_is_told(rt: HostRuntime) -> Result<(), Fail> {
    let alloc = rt.alloc();
    let book = book(alloc)?;
    let views = views(alloc)?;
    let Surveyed { survey, epochs } = survey_of(alloc, &book, views.as_slice())?;
    drop(epochs);
    let lines = lines_of(alloc, &survey)?;
    assert!(rt; lines.as_slice() == LINE);
    Ok(())
}
