//! The values of a store: texts, hashes, lists and sets, with the operations on one value.
#![tactic(auto)]

mod boxed;
mod edit;
mod fault;
mod fields;
mod items;
mod limit;
mod members;
mod names;
mod numbers;
mod pairs;
mod seen;
mod sorted;
mod texts;
mod value;

pub use boxed::Boxed;
pub use edit::{Edit, HashEdit, ListEdit, SetEdit, TextEdit};
pub use fault::ValueFault;
pub use fields::FieldMap;
pub use items::Items;
pub use limit::LIMIT;
pub use members::MemberSet;
pub use numbers::{read_number, write_number};
pub use pairs::PairList;
pub use seen::NamesSeen;
pub use texts::{append, appended_len, increase, sum_of};
pub use value::Value;
