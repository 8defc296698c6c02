//! What the table holds of methods and constructors that files have.

ghost use Rattle.std.specs.Prelude.{◌≡◌, ◌+◌, ◌<◌, length, IfOk};
ghost use Rattle.std.specs.List.{All, AllZip};
ghost use Rattle.jesc_classes.specs.Sources.{seen};
ghost use Rattle.jesc_ast.specs.Lines.{IsLines};
ghost use Rattle.jesc_members.specs.Placed.{IsPlacedConstructor, IsPlacedMethod};
ghost use Rattle.jesc_names.specs.Program.{IsParam, IsThrown, IsWrittenConstructor, IsWrittenMethod};
ghost use Rattle.jesc_names.specs.TablesKnown.{AreNumbers, IsKnownConstructor, IsKnownMethod, IsKnownParam, IsKnownThrown};

use crate::class_ids::{ClassIds, class_id, named_id, result_of, type_of};
use jesc_ast::{ConstructorTree, MethodTree, ParamTree, Word};
use jesc_classes::{GivenClass, place_at, stands_in};
use jesc_text::{List, OutOfMemory, Text};
use jesc_tree::{ClassId, Method, Param, Ty};
use std::alloc::Global;

/// The method of the class of that number.
pub fn written_method(
    alloc: Global,
    names: ClassIds<'_>,
    number: u32,
    class: GivenClass<'_>,
    tree: &MethodTree,
) -> Result<Method, OutOfMemory>
    requires numbers { AreNumbers names.classes.now names.order.now names.ids.now }
    requires within { number < length names.classes.now + 7 }
    requires lines { IsLines class.lines.now }
    requires placed { IsPlacedMethod tree.now }
    requires known { IsKnownMethod names.classes.now tree.now }
    ensures { IfOk result (IsWrittenMethod names.entry.classes.now names.entry.order.now number (seen class.entry) tree.now) }
{
    let name = copied(alloc, &tree.name)?;
    let params = params(alloc, names, tree.params.as_slice())?;
    let throws = thrown(alloc, names, tree.throws.as_slice())?;
    let modifiers = tree.modifiers.as_slice();
    Ok(Method {
        name,
        place: place_at(class.lines, tree.name.span),
        owner: class_id(names, number),
        params,
        result: result_of(names, &tree.result),
        result_nullable: stands_in(modifiers, b"nullable"),
        is_static: stands_in(modifiers, b"static"),
        is_private: stands_in(modifiers, b"private"),
        is_abstract: class.tree.is_interface || stands_in(modifiers, b"abstract"),
        is_constructor: false,
        is_pure: stands_in(modifiers, b"pure"),
        is_helper: stands_in(modifiers, b"helper"),
        throws,
        cases: List::new(alloc),
        body: None,
    })
}

/// The constructor of the class of that number.
pub fn written_constructor(
    alloc: Global,
    names: ClassIds<'_>,
    number: u32,
    class: GivenClass<'_>,
    tree: &ConstructorTree,
) -> Result<Method, OutOfMemory>
    requires numbers { AreNumbers names.classes.now names.order.now names.ids.now }
    requires within { number < length names.classes.now + 7 }
    requires lines { IsLines class.lines.now }
    requires placed { IsPlacedConstructor tree.now }
    requires known { IsKnownConstructor names.classes.now tree.now }
    ensures { IfOk result (IsWrittenConstructor names.entry.classes.now names.entry.order.now number (seen class.entry) tree.now) }
{
    let name = copied(alloc, &tree.name)?;
    let params = params(alloc, names, tree.params.as_slice())?;
    let throws = thrown(alloc, names, tree.throws.as_slice())?;
    let modifiers = tree.modifiers.as_slice();
    Ok(Method {
        name,
        place: place_at(class.lines, tree.name.span),
        owner: class_id(names, number),
        params,
        result: Ty::Void,
        result_nullable: false,
        is_static: false,
        is_private: stands_in(modifiers, b"private"),
        is_abstract: false,
        is_constructor: true,
        is_pure: stands_in(modifiers, b"pure"),
        is_helper: false,
        throws,
        cases: List::new(alloc),
        body: None,
    })
}

fn params(
    alloc: Global,
    names: ClassIds<'_>,
    trees: &[ParamTree],
) -> Result<List<Param>, OutOfMemory>
    requires numbers { AreNumbers names.classes.now names.order.now names.ids.now }
    requires known { All (IsKnownParam names.classes.now) trees.now }
    ensures { IfOk result (AllZip (IsParam names.entry.classes.now names.entry.order.now) trees.now) }
{
    let mut params = List::new(alloc);
    for tree in trees {
        let name = copied(alloc, &tree.name)?;
        params.push(Param {
            name,
            ty: type_of(names, &tree.ty),
            nullable: stands_in(tree.modifiers.as_slice(), b"nullable"),
        })?;
    }
    Ok(params)
}

/// The ids of the classes behind `throws`.
fn thrown(alloc: Global, names: ClassIds<'_>, words: &[Word]) -> Result<List<ClassId>, OutOfMemory>
    requires numbers { AreNumbers names.classes.now names.order.now names.ids.now }
    requires known { All (IsKnownThrown names.classes.now) words.now }
    ensures { IfOk result (AllZip (IsThrown names.entry.classes.now names.entry.order.now) words.now) }
{
    let mut classes = List::new(alloc);
    for word in words {
        classes.push(named_id(names, word.text.as_slice()))?;
    }
    Ok(classes)
}

/// A copy of the word's text.
pub fn copied(alloc: Global, word: &Word) -> Result<Text, OutOfMemory>
    ensures { IfOk result (λ text. text ≡ word.now.text) }
{
    let mut text = Text::new(alloc);
    text.append(word.text.as_slice())?;
    Ok(text)
}
