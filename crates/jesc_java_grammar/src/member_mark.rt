//! What a token is to the grammar of classes and their members.

/// What a token is to the grammar of classes and their members, where it is more than a part of a type.
#[derive(Debug, Drop, Clone, Copy, PartialEq, Eq)]
pub enum MemberMark {
    /// A word that is a modifier in code, or one in an annotation.
    Modifier,
    /// `@`, which begins `@Override`.
    At,
    Void,
    Class,
    Interface,
    /// Any other token, and the end.
    Other,
}
