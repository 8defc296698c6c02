//! What a walk over the members of a class keeps of those that it has met.

use jesc_classes::Table;
use jesc_text::List;

/// What was met before a member.
#[derive(Drop)]
pub struct Met<'a> {
    /// How many fields and methods there are before it in all classes.
    pub fields: u32,
    pub methods: u32,
    /// The names of this class's represents clauses, each with any number.
    pub represented: Table<'a, u32>,
    /// The numbers of parameters of this class's constructors.
    pub constructors: List<usize>,
}
