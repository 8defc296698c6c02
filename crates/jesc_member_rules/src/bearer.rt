//! What modifiers stand on.

use jesc_ast::{FieldTree, MethodTree, ParamTree};

/// What the modifiers stand on. A field of the specification is marked ghost or model.
#[derive(Drop, Clone, Copy)]
pub enum Bearer<'a> {
    JavaField(&'a FieldTree),
    SpecField(&'a FieldTree),
    Method(&'a MethodTree),
    Constructor,
    Parameter(&'a ParamTree),
}
