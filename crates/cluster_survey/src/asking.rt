ghost use Rattle.std.specs.Prelude.{◌≡◌, ◌⊎◌, Err, MatchResult, Ok, length, vec_len};
ghost use Rattle.cluster_survey.specs.Asking.{AreAsked, IsUnsurveyed, IsViewed, view_in};
ghost use Rattle.cluster_views.specs.Surveying.{IsSurveyed, Views, epochs_of};
ghost use Rattle.cluster_views.specs.declared.fault.SurveyFault.TheVariants.{Memory};
ghost use Rattle.server_commands.specs.Spelling.{nodes_request};
ghost use Rattle.server_links.specs.Links.{Exchanges};

use byte_streams::{ByteIn, ByteOut};
use cluster_views::{SurveyFault, Surveyed, survey_of};
use key_slots::NodeId;
use listed_nodes::{NodeLines, nodes_in};
use resp2_wire::Reply;
use server_commands::{NODES_REQUEST, ServerBook};
use server_links::{Link, ReplyLimit};
use std::alloc::Global;

/// Asks the server of this number for the nodes that it knows.
pub fn view_of<I: ByteIn + Drop, O: ByteOut + Drop>(
    alloc: Global,
    link: &mut Link<I, O>,
    node: NodeId,
) -> Result<NodeLines, SurveyFault>
    ensures { IsViewed (Exchanges (record { gave = I.gave; took = O.took }) nodes_request) node link.old result
        link.new }
{
    match link.ask(alloc, NODES_REQUEST, ReplyLimit::text()) {
        Ok(reply) => view_in(alloc, &reply, node),
        Err(_) => Err(SurveyFault::NoAnswer(node)),
    }
}

/// The nodes that the reply lists.
fn view_in(alloc: Global, reply: &Reply, node: NodeId) -> Result<NodeLines, SurveyFault>
    ensures { (result ≡ view_in node (Ok reply.now)) ⊎ (result ≡ Err Memory) }
{
    match reply {
        Reply::Bulk(text) => match nodes_in(alloc, text.get())? {
            Some(lines) => Ok(lines),
            None => Err(SurveyFault::Strange(node)),
        },
        Reply::Error(text) => Err(SurveyFault::of_error(node, text.get())),
        _ => Err(SurveyFault::Strange(node)),
    }
}

/// Asks each server of the book once, in its order, for the nodes that it knows, up to the first that gives no view,
/// and surveys these views as [`survey_of`] does.
pub fn survey<I: ByteIn + Drop, O: ByteOut + Drop>(
    alloc: Global,
    links: &mut Vec<Link<I, O>>,
    book: &ServerBook,
) -> Result<Surveyed, SurveyFault>
    requires { vec_len links.old ≡ length book.now }
    ensures { MatchResult result
        (λ s. (views : Views) × (length views ≡ length book.now)
        × AreAsked (Exchanges (record { gave = I.gave; took = O.took }) nodes_request) links.old.items views
        links.new.items
        × IsSurveyed book.now views s.survey × (s.epochs.items ≡ epochs_of book.now views))
        (λ e. IsUnsurveyed (Exchanges (record { gave = I.gave; took = O.took }) nodes_request) book.now
        links.old.items e links.new.items) }
{
    let mut views = Vec::new(alloc);
    for number in 0..book.nodes() {
        let node = NodeId::of(number);
        let view = view_of(alloc, &mut links[usize::from(number)], node)?;
        if views.push(view).is_err() {
            return Err(SurveyFault::Memory);
        }
    }
    survey_of(alloc, book, views.as_slice())
}
