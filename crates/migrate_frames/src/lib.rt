//! Transfer frames: the bytes in which a batch of keys with their values goes from one node to another.
//!
//! What a batch is in bytes is told by `frame`, and what stands in given bytes by `frame_at`: the batch, or the fault
//! at the first place from the left. `write_frame` and `read_frame` answer by them. The functions of the module `laws`
//! do nothing: their contracts say that the two meanings belong together, and that a batch has one frame.
#![tactic(auto)]

mod collections;
mod fault;
mod kinds;
mod laws;
mod pieces;
mod reading;
mod writing;

pub use fault::FrameFault;
pub use laws::{reading_inverts_writing, writing_is_canonical};
pub use reading::read_frame;
pub use writing::{borrow_entries, write_frame};
