use crate::ids::ClassId;

/// The type of an array's elements (JLS 10.1). An array is never the element of an array.
#[derive(Debug, Drop, Clone, Copy, PartialEq, Eq)]
pub enum Elem {
    Int,
    Long,
    Bool,
    Ref(ClassId),
}

/// The type of an expression, a field, a local or a result (JLS 4.1).
#[derive(Debug, Drop, Clone, Copy, PartialEq, Eq)]
pub enum Ty {
    /// No value: the result of a `void` method or of a constructor.
    Void,
    /// The type of `null`.
    Null,
    Int,
    Long,
    Bool,
    Ref(ClassId),
    Array(Elem),
}
