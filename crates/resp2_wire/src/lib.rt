//! The Redis serialization protocol, version 2: requests and replies, and their bytes both ways.
//!
//! What bytes mean is defined by functions on whole lists of bytes, `request_at` and `reply_at`: the value at the
//! beginning with the bytes after it, the leftmost fault, or that the bytes end too early. The decoder, which is fed
//! pieces, and `decode_reply` answer by them, however the bytes were cut. The functions of the module `laws` do
//! nothing: their contracts say that these meanings have one spelling each, and that a value or a fault at the
//! beginning stays whatever follows.
#![tactic(auto)]

mod constructors;
mod decoder;
mod decoding;
mod encoding;
mod fault;
mod laws;
mod lengths;
mod limits;
mod passing;
mod progress;
mod reading;
mod reply;
mod request;

pub use decoder::Decoder;
pub use decoding::decode_reply;
pub use encoding::{encode, encode_request};
pub use fault::{Stop, WireFault};
pub use laws::{
    decoded_replies_are_stable, decoded_requests_are_stable, decoding_ignores_chunking,
    decoding_inverts_encoding, encoding_is_canonical, faults_are_permanent,
    request_decoding_inverts_encoding, request_encoding_is_canonical,
};
pub use limits::{MAX_DEPTH, MAX_LINE_BYTES, MAX_REPLIES};
pub use reply::{Reply, ReplyList};
pub use request::{MAX_WORDS, Request};
