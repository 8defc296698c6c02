//! A file of the program, as it goes through the check.

ghost use Rattle.std.specs.Prelude.{◌≤◌, length};
ghost use Rattle.jesc_lexer.specs.Spans.{AreSpans};
ghost use Rattle.jesc_engine.specs.Spanned.{are_spans_prop};
ghost use Rattle.jesc_engine.specs.Judged.{all_duties};

use crate::answer::Judgement;
use jesc_first::Class;
use jesc_lexer::Tokens;
use jesc_text::List;

/// A file that was read, with its tokens.
#[derive(Drop)]
pub(crate) struct SourceFile<'a> {
    pub name: &'a str,
    pub tokens: Tokens,
    ghost spans: { AreSpans (length tokens.text) 0 tokens.list } by { are_spans_prop (length tokens.text) 0 tokens.list },
    ghost short: { length tokens.text ≤ 1048576 },
}

/// A file with its classes.
#[derive(Drop)]
pub(crate) struct ClassFile<'a, 'b> {
    pub source: &'a SourceFile<'b>,
    pub classes: List<Class>,
    ghost few: { length (all_duties classes) ≤ 1048576 },
}

/// A file with the judgements on the duties of its classes.
#[derive(Drop)]
pub(crate) struct JudgedFile<'a, 'b> {
    pub source: &'a SourceFile<'b>,
    pub judgements: List<Judgement>,
    ghost few: { length judgements ≤ 1048576 },
}
