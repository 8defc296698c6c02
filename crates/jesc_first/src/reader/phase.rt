//! Where the recognizer stands.

/// Where a sum stands.
#[derive(Debug, Drop, Clone, Copy)]
pub enum Seat {
    DemandLeft,
    DemandRight,
    PromiseLeft,
    PromiseRight,
    AssertionLeft,
    AssertionRight,
    /// In `int NAME = SUM;`.
    Initial,
    /// In `NAME = SUM;`.
    Assigned,
    /// In `return SUM;`.
    Returned,
}

/// What comes next.
#[derive(Debug, Drop, Clone, Copy)]
pub enum Phase {
    /// A class, or the end of the file.
    Classes,
    ClassName,
    ClassBrace,
    /// A method with its specification, or the brace that closes the class.
    Methods,
    /// A further `requires`, an `ensures` or a heading.
    Demands,
    /// A further `ensures` or a heading.
    Promises,
    /// A part of a sum.
    Part(Seat),
    /// An operator, or what ends the sum.
    Behind(Seat),
    /// `int` or `void`.
    Result,
    MethodName,
    /// The parenthesis before the parameters.
    Opening,
    /// A parameter, or the parenthesis behind none.
    FirstParameter,
    /// A parameter behind a comma.
    Parameter,
    ParameterName,
    /// A comma, or the parenthesis behind the parameters.
    NextParameter,
    BodyBrace,
    /// A statement, or the end of the body.
    Statement,
    LocalName,
    LocalEquals,
    AssignedEquals,
    /// The brace behind a `return`.
    Closing,
}
