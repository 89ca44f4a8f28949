//! A survey that is printed with the ranges of slots is read back from its text.
ghost use Rattle.std.specs.Prelude.{◌≡◌, length};

use crate::phases::survey;
use crate::servers::book;
use byte_texts::Memory;
use cluster_views::ServerSurvey;
use key_slots::NodeId;
use server_commands::ServerBook;
use std::alloc::Global;
use std::test::Fail;
use survey_files::{FileSurvey, survey_in};
use survey_texts::{put_node_line, put_slots_line, survey_text};

const FIRST: &[u8] = b"\
        aaaaaaaaaaaaaaaaaaaaaaaaaaaaaaaaaaaaaaaa 127.0.0.1:7000@17000 myself,master - 0 0 1 connected 0-5460\n\
        bbbbbbbbbbbbbbbbbbbbbbbbbbbbbbbbbbbbbbbb 127.0.0.1:7001@17001 master - 0 0 2 connected 5461-10922\n\
        cccccccccccccccccccccccccccccccccccccccc 127.0.0.1:7002@17002 master - 0 0 3 connected 10923-16383\n";

const SECOND: &[u8] = b"\
        aaaaaaaaaaaaaaaaaaaaaaaaaaaaaaaaaaaaaaaa 127.0.0.1:7000@17000 master - 0 0 1 connected 0-5460\n\
        bbbbbbbbbbbbbbbbbbbbbbbbbbbbbbbbbbbbbbbb 127.0.0.1:7001@17001 myself,master - 0 0 2 connected 5461-10922\n\
        cccccccccccccccccccccccccccccccccccccccc 127.0.0.1:7002@17002 master - 0 0 3 connected 10923-16383\n";

/// What is printed of it, with the ranges of slots.
fn printed(alloc: Global, book: &ServerBook, survey: &ServerSurvey) -> Result<Vec<u8>, Memory>
    requires { length survey.now.rows ≡ length book.now }
{
    let mut nodes = Vec::new(alloc);
    for number in 0..book.nodes() {
        let node = NodeId::of(number);
        put_node_line(&mut nodes, book, survey, node)?;
        put_slots_line(&mut nodes, survey, node)?;
    }
    survey_text(alloc, nodes.as_slice(), &[], survey, b"")
}

#[test]
fn a_printed_survey_is_read_back(rt: HostRuntime) -> Result<(), Fail> {
    let first = book(rt.alloc())?;
    let survey = survey(rt.alloc(), FIRST, SECOND)?;
    assert_eq!(rt; survey.nodes(), 3);
    let text = printed(rt.alloc(), &first, &survey)?;
    let FileSurvey { book, owners } = survey_in(rt.alloc(), text.as_slice(), &[])?;
    assert_eq!(rt; book.nodes(), 3);
    assert!(rt; owners.same(survey.owners(NodeId::of(0))));
    let again = printed(rt.alloc(), &book, &survey)?;
    assert!(rt; again.as_slice() == text.as_slice());
    Ok(())
}
