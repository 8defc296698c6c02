//! What the rules of specifications find.

use crate::cursor::Lexeme;
use crate::found::Found;
use crate::note_word::NoteWord;
use jesc_ast::{Expr, StoreTree, TypeTree, Word};
use jesc_text::{List, Span};

/// What was read, with the greatest depth of an expression in it.
#[derive(Drop)]
pub struct Measured<T> {
    pub tree: T,
    pub depth: usize,
}

/// What was read, with the greatest depth of an expression in it and the span of its last token.
#[derive(Drop)]
pub struct Ended<T> {
    pub tree: T,
    pub depth: usize,
    pub last: Span,
}

/// A path, whose last index is no part of it as long as the next token is not known.
#[derive(Drop)]
pub enum Path<'a> {
    Plain(Found),
    WithIndex(Found, Lexeme<'a>, Found, Lexeme<'a>),
}

/// A store goes on with a longer path, or it is read.
#[derive(Drop)]
pub enum StoreStep<'a> {
    GoesOn(Path<'a>),
    IsRead(Measured<StoreTree>),
}

/// An initial value that may be missing.
#[derive(Drop)]
pub struct Value {
    pub equals: Option<Span>,
    pub e: Option<Expr>,
    pub depth: usize,
}

/// What a case begins with.
#[derive(Drop, Clone, Copy)]
pub struct CaseHead<'a> {
    pub first: Span,
    pub visibility: Option<Lexeme<'a>>,
    pub heading: Option<Lexeme<'a>>,
    /// What the heading is, or another word where there is none.
    pub word: NoteWord,
}

/// What a `signals` clause begins with.
#[derive(Drop, Clone, Copy)]
pub struct SignalsHead<'a> {
    pub word: Lexeme<'a>,
    pub bracket: Lexeme<'a>,
    pub class: Lexeme<'a>,
    pub name: Option<Lexeme<'a>>,
}

/// What a specification field begins with.
#[derive(Drop)]
pub struct FieldHead<'a> {
    pub words: List<Word>,
    pub ty: TypeTree,
    pub name: Lexeme<'a>,
}
