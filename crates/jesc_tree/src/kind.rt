/// The kinds of check, in the order in which `docs/LANGUAGE.md` lists them.
#[derive(Debug, Drop, Clone, Copy, PartialEq, Eq)]
pub enum Kind {
    Assert,
    Precondition,
    Postcondition,
    Signals,
    SignalsOnly,
    Frame,
    Invariant,
    LoopInvariant,
    Null,
    Bounds,
    Size,
    Divisor,
    Cast,
    ArrayStore,
    Overflow,
    Undefined,
}
