ghost use Rattle.std.specs.Prelude.{◌≡◌, ◌<◌, length, Some, IfOk};
ghost use Rattle.std.specs.List.{slice_get};
ghost use Rattle.jesc_tree.specs.Programs.{IsProgram, name_of};

use crate::class::{Class, Field, Method};
use crate::ids::{ClassId, MethodId};
use jesc_text::{List, OutOfMemory, Text, put_number};
use std::alloc::Global;

/// A method or constructor with the class that has it, as its own or as an inherited one.
#[derive(Debug, Drop, Clone, Copy, PartialEq, Eq)]
pub struct Duty {
    pub class: ClassId,
    pub method: MethodId,
}

/// A program: the tables of its classes, fields and methods, whose indices are their ids.
///
/// Every id that a table holds is in range, supertypes have smaller ids, and the classes 0 to 6 are the predefined
/// ones.
#[derive(Drop)]
pub struct Program {
    classes: List<Class>,
    fields: List<Field>,
    methods: List<Method>,
    pub ghost tables_agree: { ∥ IsProgram classes fields methods ∥₁ },
}

impl Program {
    /// The program of these tables. Takes no memory.
    pub fn new(classes: List<Class>, fields: List<Field>, methods: List<Method>) -> Program
        requires { IsProgram classes fields methods }
        ensures classes { result.classes ≡ classes }
        ensures fields { result.fields ≡ fields }
        ensures methods { result.methods ≡ methods }
    {
        Program {
            classes,
            fields,
            methods,
        }
    }

    /// The tables, moved out. Takes no memory.
    pub fn into_parts(self) -> (List<Class>, List<Field>, List<Method>)
        ensures { result ≡ (self.classes, self.fields, self.methods) }
    {
        let Program {
            classes,
            fields,
            methods,
        } = self;
        (classes, fields, methods)
    }

    /// The classes in the order of their ids. Takes no memory.
    pub fn classes(&self) -> &[Class]
        ensures { result.now ≡ self.now.classes }
    {
        self.classes.as_slice()
    }

    /// The fields in the order of their ids. Takes no memory.
    pub fn fields(&self) -> &[Field]
        ensures { result.now ≡ self.now.fields }
    {
        self.fields.as_slice()
    }

    /// The methods and constructors in the order of their ids. Takes no memory.
    pub fn methods(&self) -> &[Method]
        ensures { result.now ≡ self.now.methods }
    {
        self.methods.as_slice()
    }

    /// The name of a duty of this program, as `Account.deposit/1`: class, method and number of parameters.
    ///
    /// Answers `OutOfMemory` where there is no room for it.
    pub fn duty_name(&self, alloc: Global, duty: Duty) -> Result<Text, OutOfMemory>
        requires class { duty.class.0 < length self.now.classes }
        requires method { duty.method.0 < length self.now.methods }
        ensures { IfOk result (λ name. (c : Class) (m : Method) → slice_get self.now.classes duty.class.0 ≡ Some c → slice_get self.now.methods duty.method.0 ≡ Some m → name ≡ name_of c m) }
    {
        let class = &self.classes.as_slice()[duty.class.0 as usize];
        let method = &self.methods.as_slice()[duty.method.0 as usize];
        let mut name = Text::new(alloc);
        name.append(class.name.as_slice())?;
        name.append(b".")?;
        name.append(method.name.as_slice())?;
        name.append(b"/")?;
        put_number(&mut name, method.params.len() as i128)?;
        Ok(name)
    }
}
