ghost use Rattle.std.specs.Prelude.{◌≡◌, true, not};
ghost use Rattle.std.specs.List.{list_all};
ghost use Rattle.resp2_wire.specs.Limits.{ends_line, is_line, is_within, are_within, Within};
ghost use Rattle.resp2_wire.specs.View.{tree, trees};

use crate::reply::Reply;

/// The most bytes of a simple text or an error.
pub const MAX_LINE_BYTES: usize = 1024;

/// The most replies of an array.
pub const MAX_REPLIES: usize = 2_097_152;

/// How deep arrays may stand in one another.
pub const MAX_DEPTH: u8 = 8;

impl Reply {
    /// Whether `encode` takes the reply: its lines have no CR, no LF and at most [`MAX_LINE_BYTES`] bytes, its arrays
    /// at most [`MAX_REPLIES`] replies, and arrays stand in one another at most [`MAX_DEPTH`] deep.
    pub fn is_within_limits(&self) -> bool
        ensures value { result ≡ is_within MAX_DEPTH (tree self.now) }
        ensures within { result ≡ true → Within MAX_DEPTH (tree self.now) }
    {
        is_within(MAX_DEPTH, self)
    }
}

#[cycle(limits)]
fn is_within(depth: u8, reply: &Reply) -> bool
    ensures { result ≡ is_within depth (tree reply.now) }
{
    match reply {
        Reply::Simple(text) => is_line(text.get()),
        Reply::Error(text) => is_line(text.get()),
        Reply::Number(_) => true,
        Reply::Bulk(_) => true,
        Reply::Null => true,
        Reply::NullArray => depth > 0,
        Reply::Array(list) => {
            if depth == 0 {
                return false;
            }
            let replies = list.get();
            if replies.len() > MAX_REPLIES {
                return false;
            }
            are_within(depth - 1, replies)
        }
    }
}

#[cycle(limits)]
fn are_within(depth: u8, replies: &[Reply]) -> bool
    ensures { result ≡ are_within depth (trees replies.now) }
{
    for reply in replies {
        if !is_within(depth, reply) {
            return false;
        }
    }
    true
}

/// Whether the text can stand in one line.
fn is_line(text: &[u8]) -> bool
    ensures { result ≡ is_line text.now }
{
    text.len() <= MAX_LINE_BYTES && has_no_line_end(text)
}

fn has_no_line_end(text: &[u8]) -> bool
    ensures { result ≡ list_all (λ b. not (ends_line b)) text.now }
{
    text.iter().all(|byte| !ends_line(*byte))
}

fn ends_line(byte: u8) -> bool
    ensures { result ≡ ends_line byte }
{
    byte == b'\r' || byte == b'\n'
}
