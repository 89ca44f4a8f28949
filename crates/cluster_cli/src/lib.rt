//! The program's command line: the status and the texts that its words lead to.
#![tactic(auto)]

mod drained_nodes;
mod forgetting;
mod laws;
mod misnaming;
mod misuse;
mod named_nodes;
mod node_lists;
mod planning;
mod program;
mod remarks;
mod said;
mod service;
mod slot_counts;
mod verifying;
mod weights;
mod weights_by_name;

pub use cluster_inspection::out_of_memory;
pub use drained_nodes::drain_named;
pub use laws::weights_are_by_name;
pub use loopback_servers::{Connection, ServeOptions, SocketIn, SocketOut, pool, serve, work};
pub use named_nodes::nodes_named;
pub use node_sockets::TcpPort;
pub use program::run_words;
pub use rehearsal::rehearse;
pub use server_headlines::{
    applied_plans_have_the_headline, plans_run_in_one_go_have_the_headline,
};
pub use weights::weights_asked;
