//! One node: its keys, its table of slots, and what each call does to them.
#![tactic(auto)]

mod administering;
mod admitting;
mod changing;
mod looking;
mod node;
mod redirecting;

pub use administering::refused_by_target;
pub use admitting::AdmitFault;
pub use changing::NodeChange;
pub use cluster_admin::{AdminCommand, AdminFault, AdminReply, KeyList};
pub use looking::id_text;
pub use node::Node;
pub use redirecting::ask_text;
