//! The trail that threads share, the seats that tie it to nodes and callers, and calls at nodes that are locked: what
//! each does there, its event on the trail, and its place in the list of the seat that made it. An event is put on the
//! trail with what it did to one node or two. A call locks the trail when all that can be made before is made; the
//! nodes' locks are not known here.
#![tactic(auto)]

mod brand;
mod client_calls;
mod locked_node;
mod locked_trail;
mod looking;
mod migrating;
mod reading;
mod rule;
mod seat_table;
mod seats;
mod settings;
mod setup;
mod spinning;
mod surveying;
mod view;

pub use brand::ClusterBrand;
pub use client_calls::call_on;
pub use locked_node::LockedNode;
pub use locked_trail::LockedTrail;
pub use looking::look_on;
pub use migrating::{move_on, refuse_on};
pub use reading::{NodeReader, read_on};
pub use seat_table::{Holder, Keeper, SeatTable};
pub use seats::{AdminSeat, ClientSeat};
pub use settings::set_on;
pub use setup::ClusterSetup;
pub use spinning::spin_then_lock;
pub use surveying::{matches_on, survey_on};
