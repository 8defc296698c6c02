//! The rules on members.

ghost use Rattle.std.specs.Prelude.{◌≡◌, ◌↔◌, ◌∷◌, ◌+◌, ◌<◌, [], length, map, true, IfOk};
ghost use Rattle.std.specs.List.{All};
ghost use Rattle.jesc_ast.specs.Lines.{IsLines, place_at};
ghost use Rattle.jesc_classes.specs.Given.{IsPlaced};
ghost use Rattle.jesc_classes.specs.Headings.{graph_of};
ghost use Rattle.jesc_classes.specs.Sources.{seen};
ghost use Rattle.jesc_members.specs.Fields.{fields_in, fields_of};
ghost use Rattle.jesc_member_rules.specs.Judging.{Begins, Decides};
ghost use Rattle.jesc_member_rules.specs.Members.{Judges, class_parts, inheritance, is_concrete, member_walk, members_from, met};
ghost use Rattle.jesc_members.specs.Overriding.{IsOpen};
ghost use Rattle.jesc_members.specs.Methods.{methods_in, methods_of};
ghost use Rattle.jesc_members.specs.Placed.{AreFew, AreMembersPlaced};
ghost use Rattle.jesc_members.specs.Seen.{seen_field};
ghost use Rattle.jesc_member_rules.specs.Throwables.{AreThrowables};

use crate::answer::answer_at;
use crate::known::Known;
use crate::member::judge_member;
use crate::met::Met;
use jesc_classes::{Classes, GivenClass, Rule, RuleError, Table, stands_in};
use jesc_members::{GivenField, Groups, Inheritance};
use jesc_text::List;
use std::alloc::Global;

/// How many fields and methods were met.
#[derive(Drop, Clone, Copy)]
pub struct Counts {
    pub fields: u32,
    pub methods: u32,
}

/// Answers Ok exactly where no rule is broken in the members of these classes, and else the first one broken: class by
/// class as they are written, first what a class inherits, and then its members' words from left to right.
///
/// Answers `OutOfMemory` where there is no room for an error's text, for a table of names or for a walk over groups.
pub fn judge_members(
    alloc: Global,
    classes: &Classes<'_>,
    inheritance: &Inheritance<'_>,
    groups: &Groups<'_>,
    throwables: &[bool],
    fields: &[GivenField<'_>],
) -> Result<(), RuleError>
    requires few { AreFew classes.now }
    requires placed { All AreMembersPlaced classes.now }
    requires inherited { inheritance.now ≡ classes.now }
    requires grouped { groups.now ≡ classes.now }
    requires throwables { AreThrowables (graph_of classes.now) throwables.now }
    requires fields { map seen_field fields.now ≡ fields_of classes.now }
    ensures { Judges classes.now result (member_walk classes.now) }
{
    let known = Known {
        classes,
        inheritance,
        groups,
        throwables,
        fields,
    };
    let mut counts = Counts {
        fields: 0,
        methods: 0,
    };
    for (i, class) in classes.list().iter().enumerate() {
        counts = judge_class(alloc, &known, 7 + i as u32, class, counts)?;
    }
    Ok(())
}

/// Judges the members of the class of this number, before which there are so many fields and methods.
fn judge_class(
    alloc: Global,
    known: &Known<'_>,
    number: u32,
    class: &GivenClass<'_>,
    before: Counts,
) -> Result<Counts, RuleError>
    requires few { AreFew known.now }
    requires placed { AreMembersPlaced (seen class.now) }
    requires number { number < length known.now + 7 }
    requires fields { Begins (fields_of known.now) before.fields (fields_in number (seen class.now) class.now.tree.now.members) }
    requires methods { Begins (methods_of known.now) before.methods (methods_in number (seen class.now) class.now.tree.now.members) }
    ensures judged { Judges known.now result (class_parts number before.fields before.methods (seen class.now)) }
    ensures fields { IfOk result (λ after. after.fields ≡ before.fields + length (fields_in number (seen class.now) class.now.tree.now.members)) }
    ensures methods { IfOk result (λ after. after.methods ≡ before.methods + length (methods_in number (seen class.now) class.now.tree.now.members)) }
{
    judge_inheritance(alloc, known, number, class)?;
    judge_all(alloc, known, number, class, before)
}

fn judge_all(
    alloc: Global,
    known: &Known<'_>,
    number: u32,
    class: &GivenClass<'_>,
    before: Counts,
) -> Result<Counts, RuleError>
    requires few { AreFew known.now }
    requires placed { AreMembersPlaced (seen class.now) }
    requires number { number < length known.now + 7 }
    requires fields { Begins (fields_of known.now) before.fields (fields_in number (seen class.now) class.now.tree.now.members) }
    requires methods { Begins (methods_of known.now) before.methods (methods_in number (seen class.now) class.now.tree.now.members) }
    ensures judged { Judges known.now result (members_from number (seen class.now) (met before.fields before.methods [] []) class.now.tree.now.members) }
    ensures fields { IfOk result (λ after. after.fields ≡ before.fields + length (fields_in number (seen class.now) class.now.tree.now.members)) }
    ensures methods { IfOk result (λ after. after.methods ≡ before.methods + length (methods_in number (seen class.now) class.now.tree.now.members)) }
{
    let mut met = Met {
        fields: before.fields,
        methods: before.methods,
        represented: Table::new(alloc),
        constructors: List::new(alloc),
    };
    let members = class.tree.members.as_slice();
    for member in members {
        judge_member(alloc, known, number, class, &mut met, member)?;
    }
    Ok(Counts {
        fields: met.fields,
        methods: met.methods,
    })
}

fn judge_inheritance(
    alloc: Global,
    known: &Known<'_>,
    number: u32,
    class: &GivenClass<'_>,
) -> Result<(), RuleError>
    requires lines { IsLines class.now.lines.now }
    requires placed { IsPlaced class.now.tree.now.name }
    requires class { number < length known.now + 7 }
    ensures { Judges known.now result (inheritance number (seen class.now) ∷ []) }
{
    let broken = broken_by_inheritance(known, number, class);
    answer_at(alloc, broken, class.lines, &class.tree.name)
}

/// The rule that the class breaks by what it inherits.
fn broken_by_inheritance(known: &Known<'_>, number: u32, class: &GivenClass<'_>) -> Option<Rule>
    requires class { number < length known.now + 7 }
    ensures { Decides known.now (inheritance number (seen class.now)) (place_at class.now.lines.now class.now.tree.now.name.span) class.now.tree.now.name.text result }
{
    if known.inheritance.has_differing(number) {
        return Some(Rule::N4);
    }
    if is_open(known, number, class) {
        return Some(Rule::N5);
    }
    if known.inheritance.has_hidden(number) {
        return Some(Rule::N8);
    }
    None
}

/// Whether the class isn't abstract and some name means a method without a body in it.
fn is_open(known: &Known<'_>, number: u32, class: &GivenClass<'_>) -> bool
    requires class { number < length known.now + 7 }
    ensures { (result ≡ true) ↔ ((is_concrete (seen class.now) ≡ true) × IsOpen known.now number) }
{
    if !is_concrete(class) {
        return false;
    }
    known.inheritance.is_open(number)
}

/// Whether it is a class that isn't abstract.
fn is_concrete(class: &GivenClass<'_>) -> bool
    ensures { result ≡ is_concrete (seen class.now) }
{
    !class.tree.is_interface && !stands_in(class.tree.modifiers.as_slice(), b"abstract")
}
