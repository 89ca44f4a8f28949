//! How a peer's words are told apart.
ghost use Rattle.std.specs.Prelude.{◌≡◌};
ghost use Rattle.byte_texts.specs.Words.{begins, is};

/// Whether the text is this word.
pub fn is(text: &[u8], word: &[u8]) -> bool
    ensures { result ≡ is word.now text.now }
{
    text == word
}

/// Whether the text begins so.
pub fn begins(text: &[u8], start: &[u8]) -> bool
    ensures { result ≡ begins start.now text.now }
{
    text.starts_with(start)
}
