ghost use Rattle.std.specs.Prelude.{◌≡◌, ◌<◌, IfSome, length};
ghost use Rattle.key_slots.specs.HashTag.{place, tag};

/// SlotsExact: the bytes of the key that are hashed: its hash tag where it has one, and else the whole key.
pub fn tag_of(key: &[u8]) -> &[u8]
    ensures { result.now ≡ tag key.now }
{
    let Some(open) = place_of(key, b'{') else {
        return key;
    };
    let rest = &key[open + 1..];
    match place_of(rest, b'}') {
        None => key,
        Some(close) => if close == 0 { key } else { &rest[..close] },
    }
}

fn place_of(text: &[u8], byte: u8) -> Option<usize>
    ensures place { result ≡ place byte text.now }
    ensures within { IfSome result (λ i. i < length text.now) }
{
    text.iter().position(|b| *b == byte)
}
