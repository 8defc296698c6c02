//! The rules on written types, on parameters and on names behind `throws`.

ghost use Rattle.std.specs.Prelude.{◌≡◌, ◌∷◌, ◌++◌, [], List, None, map, OnOk};
ghost use Rattle.std.specs.List.{All};
ghost use Rattle.jesc_ast.specs.Lines.{IsLines};
ghost use Rattle.jesc_ast.specs.declared.class.ParamTree as param_tree;
ghost use Rattle.jesc_classes.specs.Given.{IsPlaced};
ghost use Rattle.jesc_classes.specs.Headings.{Source};
ghost use Rattle.jesc_classes.specs.Named.{find};
ghost use Rattle.jesc_classes.specs.Sources.{seen};
ghost use Rattle.jesc_member_rules.specs.Judging.{AreNames, parameter_parts};
ghost use Rattle.jesc_member_rules.specs.Members.{Judges, parameter_name, parameters_from, result_parts, thrown, written_type};
ghost use Rattle.jesc_members.specs.Placed.{IsPlacedParam, IsPlacedResult, IsPlacedType};

use crate::answer::{answer, answer_at};
use crate::bearer::Bearer;
use crate::known::Known;
use crate::modifiers::judge_modifiers;
use jesc_ast::{ParamTree, TypeTree, Word};
use jesc_classes::{GivenClass, Rule, RuleError, Table, refuse};
use std::alloc::Global;

/// Judges the parameters of a method or constructor, and then the names behind `throws`.
///
/// Answers `OutOfMemory` where there is no room for an error's text or for a table of names.
pub fn judge_signature(
    alloc: Global,
    known: &Known<'_>,
    class: &GivenClass<'_>,
    parameters: &[ParamTree],
    throws: &[Word],
) -> Result<(), RuleError>
    requires lines { IsLines class.now.lines.now }
    requires parameters { All IsPlacedParam parameters.now }
    requires throws { All IsPlaced throws.now }
    ensures { Judges known.now result (parameters_from (seen class.now) [] parameters.now ++ map (thrown (seen class.now)) throws.now) }
{
    judge_parameters(alloc, known, class, parameters)?;
    judge_throws(alloc, known, class, throws)
}

/// Judges a written type. Answers `OutOfMemory` where there is no room for the error's text.
pub fn judge_type(
    alloc: Global,
    known: &Known<'_>,
    class: &GivenClass<'_>,
    ty: &TypeTree,
) -> Result<(), RuleError>
    requires lines { IsLines class.now.lines.now }
    requires placed { IsPlacedType ty.now }
    ensures { Judges known.now result (written_type (seen class.now) ty.now ∷ []) }
{
    let broken = known.broken_by_type(class, ty);
    answer(alloc, broken, class.lines, ty.span, ty.base.as_slice())
}

/// Judges the type of a method's result, where it has one.
///
/// Answers `OutOfMemory` where there is no room for the error's text.
pub fn judge_result(
    alloc: Global,
    known: &Known<'_>,
    class: &GivenClass<'_>,
    ty: &Option<TypeTree>,
) -> Result<(), RuleError>
    requires lines { IsLines class.now.lines.now }
    requires placed { IsPlacedResult ty.now }
    ensures { Judges known.now result (result_parts (seen class.now) ty.now) }
{
    match ty {
        Some(ty) => judge_type(alloc, known, class, ty),
        None => Ok(()),
    }
}

fn judge_parameters(
    alloc: Global,
    known: &Known<'_>,
    class: &GivenClass<'_>,
    parameters: &[ParamTree],
) -> Result<(), RuleError>
    requires lines { IsLines class.now.lines.now }
    requires placed { All IsPlacedParam parameters.now }
    ensures { Judges known.now result (parameters_from (seen class.now) [] parameters.now) }
{
    let mut names: Table<'_, u32> = Table::new(alloc);
    for parameter in parameters {
        judge_parameter(alloc, known, class, &names, parameter)?;
        names.add(parameter.name.text.as_slice(), 0)?;
    }
    Ok(())
}

/// Judges a parameter behind those of these names.
fn judge_parameter(
    alloc: Global,
    known: &Known<'_>,
    class: &GivenClass<'_>,
    names: &Table<'_, u32>,
    parameter: &ParamTree,
) -> Result<(), RuleError>
    requires lines { IsLines class.now.lines.now }
    requires placed { IsPlacedParam parameter.now }
    ensures judged { (before : List param_tree.ParamTree) → AreNames (λ q. q.name.text) before names.now → Judges known.now result (parameter_parts (seen class.now) before parameter.now) }
    ensures new { OnOk result (find parameter.now.name.text names.now ≡ None) }
{
    let modifiers = parameter.modifiers.as_slice();
    judge_modifiers(alloc, class, Bearer::Parameter(parameter), modifiers)?;
    judge_type(alloc, known, class, &parameter.ty)?;
    judge_parameter_name(alloc, class, names, parameter)
}

fn judge_parameter_name(
    alloc: Global,
    class: &GivenClass<'_>,
    names: &Table<'_, u32>,
    parameter: &ParamTree,
) -> Result<(), RuleError>
    requires lines { IsLines class.now.lines.now }
    requires placed { IsPlaced parameter.now.name }
    ensures judged { (given : List Source) (before : List param_tree.ParamTree) → AreNames (λ q. q.name.text) before names.now → Judges given result (parameter_name (seen class.now) before parameter.now ∷ []) }
    ensures new { OnOk result (find parameter.now.name.text names.now ≡ None) }
{
    let name = &parameter.name;
    match names.get(name.text.as_slice()) {
        Some(_) => Err(refuse(alloc, Rule::N2, class.lines, name)?),
        None => Ok(()),
    }
}

fn judge_throws(
    alloc: Global,
    known: &Known<'_>,
    class: &GivenClass<'_>,
    words: &[Word],
) -> Result<(), RuleError>
    requires lines { IsLines class.now.lines.now }
    requires placed { All IsPlaced words.now }
    ensures { Judges known.now result (map (thrown (seen class.now)) words.now) }
{
    for word in words {
        let broken = known.broken_by_thrown(class, word);
        answer_at(alloc, broken, class.lines, word)?;
    }
    Ok(())
}
