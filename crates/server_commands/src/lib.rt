//! How an administrator's requests are spelt to redis-servers, and what the servers' replies are for him.
#![tactic(auto)]

mod answers;
mod book;
mod credentials;
mod laws;
mod listings;
mod logins;
mod named_error;
mod showing;
mod spelling;
mod telling;
pub mod words;

pub use answers::{Answered, answered_by};
pub use book::{Server, ServerBook};
pub use credentials::Credentials;
pub use laws::passwords_are_hidden;
pub use listings::{count_words, listing_words};
pub use logins::{auth_request, lets_in};
pub use named_error::NamedError;
pub use showing::shown;
pub use spelling::{NODES_REQUEST, request_of};
pub use telling::{hidden, told};
