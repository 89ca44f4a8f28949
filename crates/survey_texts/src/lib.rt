//! A survey of servers as text: how it is printed, and which IDs a text expects the nodes to have.
#![tactic(auto)]

mod details;
mod expect_fault;
mod expecting;
mod left_out;
mod printing;
mod putting;
mod slot_ranges;

pub use details::{put_keys_line, put_replica_lines, put_untold_replicas};
pub use expect_fault::ExpectFault;
pub use expecting::expected;
pub use left_out::put_left_out;
pub use printing::{node_lines, put_node_line, slots_of, survey_text};
pub use putting::{put, put_node, put_number};
pub use slot_ranges::put_slots_line;
