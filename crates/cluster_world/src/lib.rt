//! A cluster of nodes without locks, the events that change it, and the trail of them.
#![tactic(auto)]

mod administering;
mod answered_errors;
mod event;
mod honesty;
mod import_marks;
mod import_row;
mod laws;
mod look;
mod node_port;
mod recorded;
mod recorded_ports;
mod sends;
mod surveying;
mod trail;
mod world;
mod world_ports;
mod world_seat;

pub use cluster_admin::{AdminCall, AdminPort, NodeCount, Phase, PortFault, Survey, add_copy};
pub use event::{Action, Event};
pub use honesty::first_dishonest;
pub use laws::{
    honesty_is_seen_event_by_event, opened_clusters_are_clean, static_clusters_answer_as_one_store,
    surveys_are_told_by_calls,
};
pub use node_port::NodePort;
pub use recorded::{RecordedWorld, Sent};
pub use sends::sends_over_worlds_are_runs;
pub use trail::Trail;
pub use world::World;
pub use world_seat::WorldSeat;
