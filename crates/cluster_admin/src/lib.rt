//! What administrators say to a cluster, what they are answered, and what the nodes' tables show.
#![tactic(auto)]

mod admin;
mod admin_port;
mod call;
mod node_count;
mod phase;
mod phases;
mod port_fault;
mod survey;
mod surveying;

pub use admin::{AdminCommand, AdminFault, AdminReply, KeyList};
pub use admin_port::AdminPort;
pub use call::AdminCall;
pub use node_count::NodeCount;
pub use phase::Phase;
pub use port_fault::PortFault;
pub use survey::Survey;
pub use surveying::add_copy;
