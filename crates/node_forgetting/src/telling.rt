//! One node is told to forget another one.
ghost use Rattle.std.specs.Prelude.{◌≡◌, IfOk, MatchOption, None, Ok, Some, option_map};
ghost use Rattle.cluster_survey.specs.Addresses.{ipv4_in};
ghost use Rattle.cluster_survey.specs.ClusterFaults.{text_of};
ghost use Rattle.cluster_survey.specs.Linking.{IsAddressOf};
ghost use Rattle.node_forgetting.specs.Outcomes.{error_reason, forget_request, forget_words, is_unknown, line_reason};
ghost use Rattle.node_forgetting.specs.Outcomes.{reason_in, strange};
ghost use Rattle.node_forgetting.specs.Telling.{IsOutcome, asking_of};
ghost use Rattle.server_links.specs.Exchanges.{Answer};
ghost use Rattle.server_links.specs.Links.{Exchanges};

use crate::countdown::Countdown;
use byte_streams::{ByteIn, ByteOut};
use byte_texts::{Memory, Text, TextList};
use cluster_survey::{ClusterFault, Reach, ipv4_in, link_to};
use cluster_views::SurveyFault;
use resp2_wire::{Reply, encode_request};
use server_commands::words::{put, put_text};
use server_commands::{Credentials, Server, told};
use server_links::{Link, ReplyLimit};
use std::alloc::{AllocError, Global};
use std::net::{Ipv4Addr, SocketAddrV4};

/// Tells the server to forget the node with this ID, over a new connection; and says why it is not told, if it is not.
pub(crate) fn tell<D: Reach, T: Countdown>(
    alloc: Global,
    reach: &mut D,
    countdown: &mut T,
    credentials: &Option<Credentials>,
    id: &Text,
    server: &Server,
) -> Result<Option<Vec<u8>>, Memory>
    ensures { IfOk result (λ r. IsOutcome
        (asking_of D.reaches D.refuses (record { gave = D.Input.gave; took = D.Output.took }) credentials.now T.over)
        credentials.now id.now server.now (option_map (λ v. v.items) r)) }
{
    if countdown.is_over() {
        return Ok(Some(Vec::from_slice(alloc, b"the time is over")?));
    }
    let Some(address) = address_of(server) else {
        return Ok(Some(Vec::from_slice(alloc, b"it has no IPv4 address")?));
    };
    match link_to(alloc, reach, address, credentials) {
        Ok(mut link) => answer_of(alloc, &mut link, credentials, id),
        Err(ClusterFault::Survey(SurveyFault::Memory)) => Err(AllocError),
        Err(fault) => fault_text(alloc, fault),
    }
}

/// Where the server serves clients, if it has an address of IPv4.
fn address_of(server: &Server) -> Option<SocketAddrV4>
    ensures { MatchOption result (ipv4_in server.now.host ≡ None) (IsAddressOf server.now) }
{
    let bits = ipv4_in(server.host.get())?;
    Some(SocketAddrV4::new(Ipv4Addr::from_bits(bits), server.port))
}

/// Why there is no connection.
fn fault_text(alloc: Global, fault: ClusterFault) -> Result<Option<Vec<u8>>, Memory>
    ensures { IfOk result (λ r. option_map (λ v. v.items) r ≡ Some (text_of fault)) }
{
    let text = format!(in alloc; "{fault}")?;
    Ok(Some(text.into_bytes()))
}

/// Sends CLUSTER FORGET over the connection, and says why the server is not told, if it is not.
fn answer_of<I: ByteIn + Drop, O: ByteOut + Drop>(
    alloc: Global,
    link: &mut Link<I, O>,
    credentials: &Option<Credentials>,
    id: &Text,
) -> Result<Option<Vec<u8>>, Memory>
    ensures { IfOk result (λ r. (x : Answer)
        × Exchanges (record { gave = I.gave; took = O.took }) (forget_request id.now) link.old x link.new
        × (option_map (λ v. v.items) r ≡ reason_in credentials.now x)) }
{
    let request = forget_request(alloc, id)?;
    match link.ask(alloc, request.as_slice(), ReplyLimit::line()) {
        Ok(reply) => reason_in(alloc, credentials, &reply),
        Err(_) => Ok(Some(Vec::from_slice(alloc, b"it gave no answer")?)),
    }
}

/// The bytes of `CLUSTER FORGET id`.
fn forget_request(alloc: Global, id: &Text) -> Result<Vec<u8>, Memory>
    ensures { IfOk result (λ v. v.items ≡ forget_request id.now) }
{
    let words = forget_words(alloc, id)?;
    encode_request(alloc, words.get())
}

/// `CLUSTER FORGET id`
fn forget_words(alloc: Global, id: &Text) -> Result<TextList, Memory>
    ensures { IfOk result (λ l. l ≡ forget_words id.now) }
{
    let mut words = TextList::new(alloc);
    put(&mut words, alloc, b"CLUSTER")?;
    put(&mut words, alloc, b"FORGET")?;
    put_text(&mut words, alloc, id)?;
    Ok(words)
}

/// Why the server is not told, by its reply, if it is not. One that does not know the node has nothing to forget.
fn reason_in(
    alloc: Global,
    credentials: &Option<Credentials>,
    reply: &Reply,
) -> Result<Option<Vec<u8>>, Memory>
    ensures { IfOk result (λ r. option_map (λ v. v.items) r ≡ reason_in credentials.now (Ok reply.now)) }
{
    match reply {
        Reply::Simple(text) => reason_in_line(alloc, text.get()),
        Reply::Error(text) => reason_in_error(alloc, credentials, text.get()),
        _ => Ok(Some(strange(alloc)?)),
    }
}

fn reason_in_line(alloc: Global, text: &[u8]) -> Result<Option<Vec<u8>>, Memory>
    ensures { IfOk result (λ r. option_map (λ v. v.items) r ≡ line_reason text.now) }
{
    if text == b"OK".as_slice() {
        return Ok(None);
    }
    Ok(Some(strange(alloc)?))
}

fn reason_in_error(
    alloc: Global,
    credentials: &Option<Credentials>,
    text: &[u8],
) -> Result<Option<Vec<u8>>, Memory>
    ensures { IfOk result (λ r. option_map (λ v. v.items) r ≡ error_reason credentials.now text.now) }
{
    if is_unknown(text) {
        return Ok(None);
    }
    let mut reason = Vec::from_slice(alloc, b"it answered ")?;
    let told = told(alloc, credentials, text)?;
    reason.extend_from_slice(told.as_slice())?;
    Ok(Some(reason))
}

fn is_unknown(text: &[u8]) -> bool
    ensures { result ≡ is_unknown text.now }
{
    text.starts_with(b"ERR Unknown node".as_slice())
}

fn strange(alloc: Global) -> Result<Vec<u8>, Memory>
    ensures { IfOk result (λ v. v.items ≡ strange) }
{
    Vec::from_slice(alloc, b"it answered something strange")
}
