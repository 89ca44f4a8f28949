//! Connections to servers: what is written of a request, and how its reply is read.
#![tactic(auto)]

mod array_header;
mod asking;
mod asking_lists;
mod asking_texts;
mod connecting;
mod incoming;
mod link;
mod link_fault;
mod list_reply;
mod login;
mod long_text;
mod looked;
mod reply_limit;
mod sending;
mod text_reply;
mod timed_stream;
mod timer;
mod turn;
mod unreached;
mod wire;

pub use asking::ask_at;
pub use asking_lists::ask_list_at;
pub use asking_texts::ask_text_at;
pub use connecting::{ServerInput, ServerLink, ServerOutput, connect};
pub use incoming::Incoming;
pub use link::Link;
pub use link_fault::LinkFault;
pub use list_reply::ListReply;
pub use login::authenticate;
pub use reply_limit::ReplyLimit;
pub use sending::{receive_at, receive_of, send_at};
pub use text_reply::TextReply;
pub use timed_stream::{TimedReader, TimedWriter};
pub use unreached::Unreached;
pub use wire::Wire;
