//! What a command line asks for.
use crate::sizes::Sizes;
use std::net::SocketAddrV4;

/// What a command line asks for.
#[derive(Drop)]
pub enum Usage {
    Rehearse,
    Verify(Start),
    Reshard(ReshardWords),
    Rebalance(RebalanceWords),
    Serve(ServeWords),
    Survey(SurveyWords),
    Apply(ApplyWords),
    Resume(ResumeWords),
    Explain(ExplainWords),
    Drain(DrainWords),
    Forget(ForgetWords),
    /// What a plan does, from where it starts.
    Draw(Start),
    /// What is there, without a plan.
    DrawNow(ClusterWords),
    Help(String),
    Wrong(String),
}

/// Who owns the slots where a plan starts.
#[derive(Drop)]
pub enum Start {
    /// The nodes of an even split.
    Even(Sizes),
    /// The nodes of a cluster of servers, as these say when they are asked.
    Cluster(ClusterWords),
    /// The nodes of the survey in the file with this path.
    Survey(String),
}

/// A cluster of servers.
#[derive(Drop)]
pub struct ClusterWords {
    /// Nodes of the cluster, 1 to 8, by which its other nodes are found; no port is 0.
    pub addresses: Vec<SocketAddrV4>,
    /// The path of a file with lines of a survey, by which each name has to stand for the same node as now.
    pub expect: Option<String>,
}

/// What is asked of a survey.
#[derive(Drop)]
pub struct SurveyWords {
    pub cluster: ClusterWords,
    /// The ranges of each master's slots are printed.
    pub slots: bool,
    /// Each master's number of keys is printed.
    pub keys: bool,
    /// Keys are looked for that lie at a master which does not own their slot.
    pub stranded: bool,
    /// All is printed that a plan can start from: the ranges of slots, too.
    pub full: bool,
}

/// How a log begins where a file with its name is there.
#[derive(Clone, Copy, Debug, PartialEq, Eq)]
pub enum LogStart {
    /// A file that holds something is refused.
    New,
    /// After what the file holds.
    Append,
    /// In place of what the file holds.
    Overwrite,
}

/// What is asked of a plan that runs at a cluster of servers.
#[derive(Drop)]
pub struct ApplyWords {
    pub cluster: ClusterWords,
    /// Milliseconds for which a node waits for another one in the middle of a MIGRATE: 1 to 600,000.
    pub timeout: u32,
    /// At most so many keys move a second, 1 to 1,000,000,000; without it there is no limit.
    pub keys_per_second: Option<u32>,
    /// The path of a file to which each command and its reply are written.
    pub log: Option<String>,
    /// How it begins. `resume` appends in any case.
    pub log_start: LogStart,
    /// A path; once something is there, no further slot is begun.
    pub stop_file: Option<String>,
    /// A slot's source and the other masters are told of its new owner once each of them has heard of it.
    pub wait_for_news: bool,
    /// IDs with commas between them, of failed masters that never return with their nodes.conf.
    pub dead_for_good: Option<String>,
    /// The path of a file with a plan. `apply` runs it in place of the one on standard input; `resume` runs those of
    /// its moves that are still to be done.
    pub plan: Option<String>,
}

/// What is asked of a run that closes open slots, and continues a plan.
#[derive(Drop)]
pub struct ResumeWords {
    pub run: ApplyWords,
    /// How many keys of an open slot a batch has at most: 1 to 1,000.
    pub batch: u16,
}

/// What is asked of a plan that is explained.
#[derive(Drop)]
pub struct ExplainWords {
    pub start: Start,
    /// JSON in place of a page of text.
    pub json: bool,
}

/// A node that the others are to forget.
#[derive(Drop)]
pub struct ForgetWords {
    /// One node, still as the words write it.
    pub node: String,
    pub cluster: ClusterWords,
}

/// How many slots are to move.
#[derive(Clone, Copy, Debug, PartialEq, Eq)]
pub enum SlotCount {
    /// So many: 0 to 16,384.
    Exactly(u16),
    /// All that the nodes own that give slots.
    AllOwned,
}

/// What is asked of a plan that moves so many slots to a node. The nodes are still as the words write them.
#[derive(Drop)]
pub struct ReshardWords {
    pub start: Start,
    /// Nodes with commas between them, or `all`.
    pub from: String,
    /// One node.
    pub to: String,
    pub slots: SlotCount,
    /// How many keys a batch has at most: 1 to 1,000.
    pub batch: u16,
}

/// What is asked of a plan that drains nodes. The nodes are still as the words write them.
#[derive(Drop)]
pub struct DrainWords {
    pub start: Start,
    /// Nodes with commas between them.
    pub from: String,
    /// Nodes with commas between them; without them all other nodes take slots.
    pub to: Option<String>,
    /// How many keys a batch has at most: 1 to 1,000.
    pub batch: u16,
}

/// What is asked of a plan that gives each node its share. The weights are still as the words write them.
#[derive(Drop)]
pub struct RebalanceWords {
    pub start: Start,
    /// Weights with commas between them, one for each node.
    pub weights: Option<String>,
    /// Per cent: 0 to 100.
    pub threshold: u8,
    /// Nodes that hold no slot take part too.
    pub use_empty: bool,
    /// How many keys a batch has at most: 1 to 1,000.
    pub batch: u16,
}

/// What is asked of nodes that are served.
#[derive(Clone, Copy, Debug, PartialEq, Eq)]
pub struct ServeWords {
    pub sizes: Sizes,
    /// The first node's port, above which the others' lie: 1 to 65,528.
    pub base_port: u16,
    /// How many threads serve sessions: 1 to 32.
    pub workers: u8,
    /// How many connections are accepted at each node; 0 is no end.
    pub connections: u32,
    /// A plan is read, and runs while clients work.
    pub plan: bool,
    /// Clients of a Redis Cluster are answered what they ask first.
    pub answers_clients: bool,
}
