//! What a plan does, as a picture: an SVG with one band for each node before the plan and one after it, and a ribbon
//! for each range of slots that gets another owner. It needs no script, and nothing that stands elsewhere.
#![tactic(auto)]

mod bars;
mod drawings;
mod filling;
mod frames;
mod layouts;
mod legends;
mod now_drawings;
mod now_words;
mod open_slots;
mod ribbons;
mod rows;
mod styles;
#[cfg(test)]
mod tests;
mod words;

pub use bars::{Bar, bars_are_ranges, bars_show_owners};
pub use drawings::drawing;
pub use now_drawings::now_drawing;
pub use open_slots::OpenSlot;
pub use ribbons::Ribbon;
