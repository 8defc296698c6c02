/// A class or interface of a program: its index in the list of classes.
#[derive(Debug, Drop, Clone, Copy, PartialEq, Eq)]
pub struct ClassId(pub u32);

/// A field of a program: its index in the list of fields.
#[derive(Debug, Drop, Clone, Copy, PartialEq, Eq)]
pub struct FieldId(pub u32);

/// A method or constructor of a program: its index in the list of methods.
#[derive(Debug, Drop, Clone, Copy, PartialEq, Eq)]
pub struct MethodId(pub u32);

/// A local variable of a method or constructor. Parameter k is number k.
#[derive(Debug, Drop, Clone, Copy, PartialEq, Eq)]
pub struct LocalId(pub u32);
