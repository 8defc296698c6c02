//! The rules on fields, on groups and on represents clauses.

ghost use Rattle.std.specs.Prelude.{◌≡◌, ◌∷◌, ◌<◌, ◌+◌, [], List, Some, None, length, map, slice_get, IfOk, OnOk};
ghost use Rattle.std.specs.List.{All};
ghost use Rattle.jesc_ast.specs.Lines.{IsLines, place_at};
ghost use Rattle.jesc_ast.specs.declared.word.Word as word_tree;
ghost use Rattle.jesc_classes.specs.Given.{IsPlaced};
ghost use Rattle.jesc_classes.specs.Named.{find};
ghost use Rattle.jesc_classes.specs.Sources.{seen};
ghost use Rattle.jesc_members.specs.Fields.{fields_of};
ghost use Rattle.jesc_member_rules.specs.Judging.{AreNames, Decides, seen_bearer};
ghost use Rattle.jesc_member_rules.specs.Members.{Judges, field_name, field_parts, field_stands, group, represented};
ghost use Rattle.jesc_members.specs.Placed.{IsPlacedField};
ghost use Rattle.jesc_members.specs.Seen.{seen_field};

use crate::answer::{answer_at, if_broken};
use crate::bearer::Bearer;
use crate::heads::judge_type;
use crate::known::Known;
use crate::modifiers::judge_modifiers;
use jesc_ast::Word;
use jesc_classes::{GivenClass, Rule, RuleError, Table, refuse, stands_in};
use jesc_members::{GivenField, is_model};
use jesc_text::OutOfMemory;
use std::alloc::Global;

/// Judges the field of this number: its words from left to right.
///
/// Answers `OutOfMemory` where there is no room for the walk over groups or for an error's text.
pub fn judge_field(
    alloc: Global,
    known: &Known<'_>,
    on: Bearer<'_>,
    number: u32,
    field: &GivenField<'_>,
) -> Result<(), RuleError>
    requires lines { IsLines field.now.class.lines.now }
    requires placed { IsPlacedField field.now.tree.now }
    requires class { field.now.number < length known.now + 7 }
    requires given { slice_get (fields_of known.now) number ≡ Some (seen_field field.now) }
    ensures { Judges known.now result (field_parts (seen_bearer on.entry) number (seen_field field.now)) }
{
    let tree = field.tree;
    let modifiers = tree.modifiers.as_slice();
    judge_modifiers(alloc, &field.class, on, modifiers)?;
    judge_type(alloc, known, &field.class, &tree.ty)?;
    judge_field_name(alloc, known, number, field)?;
    let groups = tree.groups.as_slice();
    judge_groups(alloc, known, field, groups)
}

fn judge_field_name(
    alloc: Global,
    known: &Known<'_>,
    number: u32,
    field: &GivenField<'_>,
) -> Result<(), RuleError>
    requires lines { IsLines field.now.class.lines.now }
    requires placed { IsPlaced field.now.tree.now.name }
    requires class { field.now.number < length known.now + 7 }
    requires given { slice_get (fields_of known.now) number ≡ Some (seen_field field.now) }
    ensures { Judges known.now result (field_name number (seen_field field.now) ∷ []) }
{
    let broken = broken_by_field(alloc, known, number, field)?;
    answer_at(alloc, broken, field.class.lines, &field.tree.name)
}

/// The rule that the field as a whole breaks.
fn broken_by_field(
    alloc: Global,
    known: &Known<'_>,
    number: u32,
    field: &GivenField<'_>,
) -> Result<Option<Rule>, OutOfMemory>
    requires class { field.now.number < length known.now + 7 }
    requires given { slice_get (fields_of known.now) number ≡ Some (seen_field field.now) }
    ensures { IfOk result (Decides known.now (field_name number (seen_field field.now)) (place_at field.now.class.lines.now field.now.tree.now.name.span) field.now.tree.now.name.text) }
{
    if known.is_later_field(number, field) {
        return Ok(Some(Rule::N2));
    }
    if known.groups.is_on_cycle(alloc, number)? {
        return Ok(Some(Rule::N7));
    }
    Ok(if_broken(!field_stands(field), Rule::N9))
}

/// Whether it is a field that its class or interface may have.
fn field_stands(field: &GivenField<'_>) -> bool
    ensures { result ≡ field_stands (seen_field field.now) }
{
    let is_model = is_model(field);
    let is_instance = stands_in(field.tree.modifiers.as_slice(), b"instance");
    (!field.class.tree.is_interface || is_model && is_instance)
        && !(is_model && field.tree.value.is_some())
}

fn judge_groups(
    alloc: Global,
    known: &Known<'_>,
    field: &GivenField<'_>,
    words: &[Word],
) -> Result<(), RuleError>
    requires lines { IsLines field.now.class.lines.now }
    requires placed { All IsPlaced words.now }
    requires class { field.now.number < length known.now + 7 }
    ensures { Judges known.now result (map (group field.now.number (seen field.now.class)) words.now) }
{
    for word in words {
        judge_group(alloc, known, field, word)?;
    }
    Ok(())
}

fn judge_group(
    alloc: Global,
    known: &Known<'_>,
    field: &GivenField<'_>,
    word: &Word,
) -> Result<(), RuleError>
    requires lines { IsLines field.now.class.lines.now }
    requires placed { IsPlaced word.now }
    requires class { field.now.number < length known.now + 7 }
    ensures { Judges known.now result (group field.now.number (seen field.now.class) word.now ∷ []) }
{
    let is_model = known.names_model(field.number, word.text.as_slice());
    let broken = if_broken(!is_model, Rule::N7);
    answer_at(alloc, broken, field.class.lines, word)
}

/// Judges the name of a represents clause in the class of this number, behind clauses of these names.
///
/// Answers `OutOfMemory` where there is no room for the error's text.
pub fn judge_represented(
    alloc: Global,
    known: &Known<'_>,
    number: u32,
    class: &GivenClass<'_>,
    names: &Table<'_, u32>,
    word: &Word,
) -> Result<(), RuleError>
    requires lines { IsLines class.now.lines.now }
    requires placed { IsPlaced word.now }
    requires class { number < length known.now + 7 }
    ensures judged { (before : List word_tree.Word) → AreNames (λ w. w.text) before names.now → Judges known.now result (represented number (seen class.now) before word.now ∷ []) }
    ensures new { OnOk result (find word.now.text names.now ≡ None) }
{
    let text = word.text.as_slice();
    if class.tree.is_interface {
        return Err(refuse(alloc, Rule::N7, class.lines, word)?);
    }
    match names.get(text) {
        Some(_) => Err(refuse(alloc, Rule::N7, class.lines, word)?),
        None => {
            let broken = if_broken(!known.names_model(number, text), Rule::N7);
            answer_at(alloc, broken, class.lines, word)
        }
    }
}
