//! Where a command at a cluster of servers runs.
use server_commands::Credentials;
use std::alloc::Global;

/// The system that a command runs on, its memory, and what its connections show.
#[derive(Drop)]
pub struct System<'a, H> {
    pub rt: &'a H,
    pub alloc: Global,
    pub credentials: &'a Option<Credentials>,
}
