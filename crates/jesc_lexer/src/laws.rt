//! What holds of the tokens of each file. Each law is a function without a body, whose contract states it.
ghost use Rattle.std.specs.Prelude.{◌≡◌, ℕ, List, ◌∷◌, ◌++◌};
ghost use Rattle.jesc_lexer.specs.Elements.{IsCode};
ghost use Rattle.jesc_lexer.specs.Lexed.{IsLexed};
ghost use Rattle.jesc_lexer.specs.Longest.{IsLongest};
ghost use Rattle.jesc_lexer.specs.declared.token.Token.{Token};

/// Each token of a file is the longest that begins at its place: whatever text there is a token's, of any kind, is of its
/// kind and no longer (JLS 3.2).
///
/// `<-` and four more signs are tokens in annotations alone, and `<-` only behind `represents` and a word. A letter, a
/// digit or an underscore never follows a number directly, since a file where one does is refused; `1$` is a number
/// and a word.
pub fn longest_match()
    ensures { (file : ℕ) (bytes : List ℕ) (tokens before after : List Token) (token : Token) → IsLexed file bytes tokens → tokens ≡ before ++ token ∷ after → IsLongest bytes before token }
{}

/// A file with tokens is put together from white space, comments, annotations and its tokens, which stand where their
/// spans say, and from nothing else (JLS 3.5).
pub fn input_elements()
    ensures { (file : ℕ) (bytes : List ℕ) (tokens : List Token) → IsLexed file bytes tokens → IsCode file 0 bytes tokens }
{}
