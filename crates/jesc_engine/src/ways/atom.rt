/// The value of a slot or an operation, as the rows see it: a number, or a term by its number.
#[derive(Debug, Drop, Clone, Copy, PartialEq, Eq)]
pub enum Atom {
    Number(i64),
    Term(u32),
}
