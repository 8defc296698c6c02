//! Texts that are equal, and whether a word stands among others.

ghost use Rattle.std.specs.Prelude.{◌≡◌, bytes_eq};
ghost use Rattle.std.specs.List.{list_any};
ghost use Rattle.jesc_classes.specs.Headings.{is_word};

use jesc_ast::Word;

/// Whether the texts are equal. Takes no memory.
pub fn is_same(a: &[u8], b: &[u8]) -> bool
    ensures { result ≡ bytes_eq a.now b.now }
{
    a == b
}

/// Whether one of the words has this text. Takes no memory.
pub fn stands_in(words: &[Word], text: &[u8]) -> bool
    ensures { result ≡ list_any (is_word text.now) words.now }
{
    words.iter().any(|word| text == word.text.as_slice())
}
