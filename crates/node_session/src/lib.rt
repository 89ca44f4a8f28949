//! Sessions: requests out of any reader, each answered in order to any writer, with the nodes after any port.
#![tactic(auto)]

mod answering;
mod asked;
mod one_request;
mod questions;
mod replies;
mod serving;
mod session_end;
mod want;
mod writing;

pub use answering::answer;
pub use questions::{NoQuestions, Questions};
pub use serving::{serve_session, serve_with_questions};
pub use session_end::SessionEnd;
