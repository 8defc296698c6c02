//! The words of the command.

ghost use Rattle.std.specs.Prelude.{◌≡◌, ◌≤◌, ◌↔◌, IsTrue, All, IfSome, MatchOption, length, map};
ghost use Rattle.std.specs.String.{string_bytes};
ghost use Rattle.jesc_engine.specs.Command.{IsFileWord, IsCommand, names_of};

/// Whether these are 1 to 64 FILE words, none of which begins with `-`.
fn are_file_words(words: &[String]) -> bool
    ensures { IsTrue result ↔ ((1 ≤ length words.now) × (length words.now ≤ 64) × All IsFileWord words.now) }
{
    !words.is_empty()
        && words.len() <= 64
        && words.iter().all(|word| !word.as_str().starts_with("-"))
}

/// The FILE words, where the words are `--esc` and 1 to 64 FILE words.
pub(crate) fn file_words(words: &[String]) -> Option<&[String]>
    ensures few { IfSome result (λ files. length files.now ≤ 64) }
    ensures names { MatchOption result (¬ (IsCommand words.now)) (λ files. IsCommand words.now × (map string_bytes files.now ≡ names_of words.now)) }
{
    match words {
        [esc, files @ ..] if esc.as_str() == "--esc" && are_file_words(files) => Some(files),
        _ => None,
    }
}
