//! Whether a name stands among others.
ghost use Rattle.std.specs.Prelude.{◌≡◌, if◌then◌else◌};
ghost use Rattle.std.specs.List.{list_any};
ghost use Rattle.typed_values.specs.Fields.{same_bytes};
ghost use Rattle.typed_values.specs.Members.{has};

use byte_texts::Text;

// So many names are compared with one another; more are looked up among those that were read, where there is memory.
pub(crate) const FEW: usize = 8;

// Whether one of the texts is this one.
pub(crate) fn has_text(texts: &[Text], text: &[u8]) -> bool
    ensures { result ≡ has texts.now text.now }
{
    texts.iter().any(|other| text == other.get())
}

// Whether one of the pairs has this name.
pub(crate) fn has_name(pairs: &[(Text, Text)], name: &[u8]) -> bool
    ensures { result ≡ list_any (λ p. same_bytes name.now p.0) pairs.now }
{
    pairs.iter().any(|pair| name == pair.0.get())
}

// 1 for true, and 0 for false.
pub(crate) fn one_if(held: bool) -> usize
    ensures { result ≡ (if held then 1 else 0) }
{
    usize::from(held)
}
