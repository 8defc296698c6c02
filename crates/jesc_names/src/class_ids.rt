//! The ids of classes, and types by them.

ghost use Rattle.std.specs.Prelude.{◌≡◌, ◌+◌, ◌<◌, bytes_eq, length};
ghost use Rattle.jesc_classes.specs.Resolved.{IsId};
ghost use Rattle.jesc_names.specs.Program.{IsElem, IsReference, IsResult, IsType};
ghost use Rattle.jesc_names.specs.TablesKnown.{AreNumbers, IsKnownName, IsKnownResult, IsKnownType};

use jesc_ast::TypeTree;
use jesc_classes::Classes;
use jesc_tree::{ClassId, Elem, Ty};

/// The given classes, the numbers of all classes in the order of their ids, and of each class by number its id.
#[derive(Drop, Clone, Copy)]
pub struct ClassIds<'a> {
    pub classes: &'a Classes<'a>,
    pub order: &'a [u32],
    pub ids: &'a [u32],
}

/// The id of the class of that number.
pub fn class_id(names: ClassIds<'_>, number: u32) -> ClassId
    requires numbers { AreNumbers names.classes.now names.order.now names.ids.now }
    requires within { number < length names.classes.now + 7 }
    ensures { IsId names.entry.order.now number result.0 }
{
    ClassId(names.ids[number as usize])
}

/// The id of the class of that name, which is known.
pub fn named_id(names: ClassIds<'_>, name: &[u8]) -> ClassId
    requires numbers { AreNumbers names.classes.now names.order.now names.ids.now }
    requires known { IsKnownName names.classes.now name.now }
    ensures { IsReference names.entry.classes.now names.entry.order.now name.now result }
{
    match names.classes.find(name) {
        Some(number) => class_id(names, number),
        None => unreachable!(),
    }
}

/// The type that a written one means.
pub fn type_of(names: ClassIds<'_>, tree: &TypeTree) -> Ty
    requires numbers { AreNumbers names.classes.now names.order.now names.ids.now }
    requires known { IsKnownType names.classes.now tree.now }
    ensures { IsType names.entry.classes.now names.entry.order.now tree.now result }
{
    let elem = elem_of(names, tree);
    if tree.array {
        return Ty::Array(elem);
    }
    match elem {
        Elem::Int => Ty::Int,
        Elem::Long => Ty::Long,
        Elem::Bool => Ty::Bool,
        Elem::Ref(class) => Ty::Ref(class),
    }
}

fn elem_of(names: ClassIds<'_>, tree: &TypeTree) -> Elem
    requires numbers { AreNumbers names.classes.now names.order.now names.ids.now }
    requires known { IsKnownType names.classes.now tree.now }
    ensures { IsElem names.entry.classes.now names.entry.order.now tree.now.base result }
{
    let base = tree.base.as_slice();
    if same(base, b"int") {
        return Elem::Int;
    }
    if same(base, b"long") {
        return Elem::Long;
    }
    if same(base, b"boolean") {
        return Elem::Bool;
    }
    Elem::Ref(named_id(names, base))
}

/// The type of a result, where `void` is none.
pub fn result_of(names: ClassIds<'_>, tree: &Option<TypeTree>) -> Ty
    requires numbers { AreNumbers names.classes.now names.order.now names.ids.now }
    requires known { IsKnownResult names.classes.now tree.now }
    ensures { IsResult names.entry.classes.now names.entry.order.now tree.now result }
{
    match tree {
        None => Ty::Void,
        Some(written) => type_of(names, written),
    }
}

fn same(a: &[u8], b: &[u8]) -> bool
    ensures { result ≡ bytes_eq a.now b.now }
{
    a == b
}
