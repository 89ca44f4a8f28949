//! Words as requests.
use byte_texts::Text;
use resp2_wire::Request;
use std::alloc::Global;

/// The request of these words, of which there are a few short ones, with a space between each two.
pub(crate) fn request_of(alloc: Global, words: &str) -> Option<Request> {
    let mut texts = Vec::new(alloc);
    for word in words.split(' ').take(100) {
        if word.len() < 100 {
            texts
                .push(Text::from_slice(alloc, word.as_bytes()).ok()?)
                .ok()?;
        }
    }
    if texts.len() > 1024 {
        return None;
    }
    Some(Request::from_vec(texts))
}
