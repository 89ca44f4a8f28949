//! A node that is forgotten: what the servers tell of it first, and then the telling.
ghost use Rattle.std.specs.Prelude.{◌≡◌, ◌≤◌, ◌<◌, IfOk, IfSome, MatchOption, None, length, vec_len};
ghost use Rattle.cluster_inspection.specs.Starts.{SaysNoStart};
ghost use Rattle.command_words.specs.Clusters.{IsAddressed};
ghost use Rattle.node_forgetting.specs.Forgetting.{IsForgetAnswer, NamesNoNode, SaysFollowed, SaysForgotten, SaysFree};
ghost use Rattle.node_forgetting.specs.Forgetting.{SaysListed, SaysOthers, SaysTold, any_asking};
ghost use Rattle.node_forgetting.specs.Holding.{hold};
ghost use Rattle.node_forgetting.specs.Naming.{node_in};
ghost use Rattle.node_forgetting.specs.Telling.{asking_of};
ghost use Rattle.node_forgetting.specs.Texts.{follower_text, hold_text};
ghost use Rattle.server_commands.specs.Servers.{server_at};
ghost use Rattle.transcripts.specs.OutcomeTexts.{refused_text};

use crate::answering::{put_follower, put_forgotten};
use crate::countdown::{ClockCountdown, Countdown};
use crate::hold::Hold;
use crate::holding::hold;
use crate::leaving::Leaving;
use crate::other_nodes::others;
use crate::told_nodes::tell_all;
use cluster_inspection::{ASKING, NoCluster, Sockets, System, find_cluster};
use cluster_survey::{FoundCluster, Reach, view_of};
use cluster_views::{ServerSurvey, SurveyFault};
use command_words::ForgetWords;
use key_slots::{MAX_NODES, NodeId};
use listed_nodes::NodeLine;
use server_commands::{Credentials, Server};
use server_links::Link;
use server_replicas::replicas_at;
use std::alloc::{AllocError, Global};
use std::fs::{File, Files};
use std::net::{Net, TcpListener, TcpStream};
use std::time::Clock;
use transcripts::Transcript;

/// How many nodes may be listed beside the one that is to be forgotten.
const MAX_OTHERS: usize = 65_535;

/// What there is to say of a node that the others are to forget, unless the words name none of the cluster. The status
/// is 0 where all other nodes have forgotten it, and 1 where one was not told, the node is still needed, or there is no
/// survey. No node is told anything unless the survey shows no slot of it, no mark that names it and none of its own,
/// and it has no replica.
pub fn forget_answer<
    H: Net<Listener = TcpListener, Stream = TcpStream> + Clock + Files<File = File> + AllocGlobal,
>(system: &System<'_, H>, words: &ForgetWords) -> Result<Option<Transcript>, AllocError>
    requires { IsAddressed words.now.cluster }
    ensures status { IfOk result (λ o. IfSome o (λ t. t.status ≤ 1)) }
    ensures says { IfOk result (λ o. MatchOption o (NamesNoNode words.now)
        (λ t. IsForgetAnswer words.now t.status t.printed.items)) }
{
    let servers = match find_cluster(system, &words.cluster, &[], ASKING) {
        Ok(servers) => servers,
        Err(NoCluster::Memory) => return Err(AllocError),
        Err(NoCluster::Answer(answer)) => return Ok(Some(answer)),
    };
    let Some(node) = node_in(words.node.as_bytes(), servers.book.nodes()) else {
        return Ok(None);
    };
    let mut sockets = Sockets::new(system, ASKING);
    let mut countdown = ClockCountdown::new(system.rt);
    let credentials = system.credentials;
    let answer = answer_at(
        system.alloc,
        &mut sockets,
        &mut countdown,
        credentials,
        servers,
        node,
    )?;
    Ok(Some(answer))
}

/// The node of a cluster of so many that the word names.
fn node_in(word: &[u8], nodes: u8) -> Option<NodeId>
    ensures node { result ≡ node_in nodes word.now }
    ensures exists { IfSome result (λ n. n < nodes) }
{
    let node = NodeId::parse_among(MAX_NODES, word)?;
    if node.get() < nodes { Some(node) } else { None }
}

/// What there is to say of the node at these servers.
fn answer_at<D: Reach, T: Countdown>(
    alloc: Global,
    reach: &mut D,
    countdown: &mut T,
    credentials: &Option<Credentials>,
    servers: FoundCluster<D::Input, D::Output>,
    node: NodeId,
) -> Result<Transcript, AllocError>
    requires { node < length servers.book }
    ensures status { IfOk result (λ t. t.status ≤ 1) }
    ensures says { IfOk result (λ t. SaysForgotten
        (asking_of D.reaches D.refuses (record { gave = D.Input.gave; took = D.Output.took }) credentials.now T.over)
        credentials.now node (server_at servers.book node) servers.surveyed.survey t.status t.printed.items) }
    ensures known { IfOk result (λ t. SaysForgotten any_asking credentials.now node (server_at servers.book node)
        servers.surveyed.survey t.status t.printed.items) }
{
    let FoundCluster {
        book,
        links,
        surveyed,
        left_out: _,
    } = servers;
    let survey = &surveyed.survey;
    match hold(survey, node) {
        Some(hold) => held_answer(alloc, hold),
        None => {
            let server = book.server(node);
            free_answer(
                alloc,
                reach,
                countdown,
                credentials,
                links,
                survey,
                server,
                node,
            )
        }
    }
}

/// What still holds the node is told.
fn held_answer(alloc: Global, hold: Hold) -> Result<Transcript, AllocError>
    ensures status { IfOk result (λ t. t.status ≡ 1) }
    ensures text { IfOk result (λ t. t.printed.items ≡ refused_text (hold_text hold)) }
{
    let text = format!(in alloc; "refused: {hold}\n")?;
    Ok(refusing(alloc, text.into_bytes()))
}

/// A refusal in these words.
fn refusing(alloc: Global, text: Vec<u8>) -> Transcript
    ensures status { result.status ≡ 1 }
    ensures text { result.printed.items ≡ text.items }
{
    let mut answer = Transcript::new(alloc);
    answer.printed = text;
    answer.status = 1;
    answer
}

/// What there is to say of a node that no survey holds: its replicas are asked for.
fn free_answer<D: Reach, T: Countdown>(
    alloc: Global,
    reach: &mut D,
    countdown: &mut T,
    credentials: &Option<Credentials>,
    links: Vec<Link<D::Input, D::Output>>,
    survey: &ServerSurvey,
    server: &Server,
    node: NodeId,
) -> Result<Transcript, AllocError>
    requires node { node < vec_len links }
    requires free { hold survey.now node ≡ None }
    ensures status { IfOk result (λ t. t.status ≤ 1) }
    ensures says { IfOk result (λ t. SaysFree
        (asking_of D.reaches D.refuses (record { gave = D.Input.gave; took = D.Output.took }) credentials.now T.over)
        credentials.now node server.now t.status t.printed.items) }
{
    let mut links = links;
    match replicas_at(alloc, &mut links, node, &server.name) {
        Ok(replicas) => {
            let replicas = replicas.as_slice();
            followed_answer(
                alloc,
                reach,
                countdown,
                credentials,
                links,
                survey,
                server,
                node,
                replicas,
            )
        }
        Err(SurveyFault::Memory) => Err(AllocError),
        Err(fault) => unsurveyed(alloc, fault),
    }
}

/// What is said where a server does not tell what it is asked.
fn unsurveyed(alloc: Global, fault: SurveyFault) -> Result<Transcript, AllocError>
    ensures status { IfOk result (λ t. t.status ≤ 1) }
    ensures says { IfOk result (λ t. SaysNoStart t.status t.printed.items) }
{
    let reason = format!(in alloc; "{fault}")?;
    let mut answer = Transcript::new(alloc);
    answer.report_unsurveyed(reason.as_bytes())?;
    Ok(answer)
}

/// The first of these replicas is told; or, where there is none, the other nodes are.
fn followed_answer<D: Reach, T: Countdown>(
    alloc: Global,
    reach: &mut D,
    countdown: &mut T,
    credentials: &Option<Credentials>,
    links: Vec<Link<D::Input, D::Output>>,
    survey: &ServerSurvey,
    server: &Server,
    node: NodeId,
    replicas: &[NodeLine],
) -> Result<Transcript, AllocError>
    requires node { node < vec_len links }
    requires free { hold survey.now node ≡ None }
    ensures status { IfOk result (λ t. t.status ≤ 1) }
    ensures says { IfOk result (λ t. SaysFollowed
        (asking_of D.reaches D.refuses (record { gave = D.Input.gave; took = D.Output.took }) credentials.now T.over)
        credentials.now node server.now replicas.now t.status t.printed.items) }
{
    match replicas {
        [replica, ..] => follower_answer(alloc, node, replica),
        [] => {
            let leaving = Leaving {
                survey,
                server,
                node,
                replicas,
            };
            listed_answer(alloc, reach, countdown, credentials, links, &leaving)
        }
    }
}

/// That the node has this replica is told.
fn follower_answer(
    alloc: Global,
    node: NodeId,
    replica: &NodeLine,
) -> Result<Transcript, AllocError>
    ensures status { IfOk result (λ t. t.status ≡ 1) }
    ensures text { IfOk result (λ t. t.printed.items ≡ refused_text (follower_text node replica.now)) }
{
    let mut text = Vec::from_slice(alloc, b"refused: ")?;
    put_follower(&mut text, node, replica)?;
    text.push(b'\n')?;
    Ok(refusing(alloc, text))
}

/// The node lists the others, which are told.
fn listed_answer<D: Reach, T: Countdown>(
    alloc: Global,
    reach: &mut D,
    countdown: &mut T,
    credentials: &Option<Credentials>,
    links: Vec<Link<D::Input, D::Output>>,
    leaving: &Leaving,
) -> Result<Transcript, AllocError>
    requires { leaving.now.node < vec_len links }
    ensures status { IfOk result (λ t. t.status ≤ 1) }
    ensures says { IfOk result (λ t. SaysListed
        (asking_of D.reaches D.refuses (record { gave = D.Input.gave; took = D.Output.took }) credentials.now T.over)
        credentials.now leaving.now.node leaving.now.server.now t.status t.printed.items) }
{
    let node = leaving.node;
    let mut links = links;
    match view_of(alloc, &mut links[usize::from(node.get())], node) {
        Ok(lines) => { others_answer(alloc, reach, countdown, credentials, leaving, lines.get()) }
        Err(SurveyFault::Memory) => Err(AllocError),
        Err(fault) => unsurveyed(alloc, fault),
    }
}

/// All others in these lines are told, unless there are more than a cluster can have.
fn others_answer<D: Reach, T: Countdown>(
    alloc: Global,
    reach: &mut D,
    countdown: &mut T,
    credentials: &Option<Credentials>,
    leaving: &Leaving,
    lines: &[NodeLine],
) -> Result<Transcript, AllocError>
    ensures status { IfOk result (λ t. t.status ≤ 1) }
    ensures says { IfOk result (λ t. SaysOthers
        (asking_of D.reaches D.refuses (record { gave = D.Input.gave; took = D.Output.took }) credentials.now T.over)
        credentials.now leaving.now.node leaving.now.server.now lines.now t.status t.printed.items) }
{
    let servers = others(alloc, lines, &leaving.server.name)?;
    let servers = servers.as_slice();
    if servers.len() > MAX_OTHERS {
        return unsurveyed(alloc, SurveyFault::Strange(leaving.node));
    }
    told_answer(alloc, reach, countdown, credentials, leaving, servers)
}

/// These servers are told.
fn told_answer<D: Reach, T: Countdown>(
    alloc: Global,
    reach: &mut D,
    countdown: &mut T,
    credentials: &Option<Credentials>,
    leaving: &Leaving,
    servers: &[Server],
) -> Result<Transcript, AllocError>
    requires { length servers.now ≤ 65535 }
    ensures status { IfOk result (λ t. t.status ≤ 1) }
    ensures says { IfOk result (λ t. SaysTold
        (asking_of D.reaches D.refuses (record { gave = D.Input.gave; took = D.Output.took }) credentials.now T.over)
        credentials.now leaving.now.node leaving.now.server.now servers.now t.status t.printed.items) }
{
    let mut text = Vec::new(alloc);
    let told = tell_all(
        &mut text,
        alloc,
        reach,
        countdown,
        credentials,
        leaving,
        servers,
    )?;
    let count = servers.len() as u32;
    put_forgotten(&mut text, leaving.node, leaving.server, told as u32, count)?;
    let mut answer = Transcript::new(alloc);
    answer.printed = text;
    answer.status = if told == servers.len() { 0 } else { 1 };
    Ok(answer)
}
