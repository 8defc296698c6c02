//! The members of a class one by one.

ghost use Rattle.std.specs.Prelude.{◌≡◌, ◌∷◌, ◌++◌, ◌+◌, ◌<◌, [], length, OnOk};
ghost use Rattle.jesc_ast.specs.Lines.{IsLines};
ghost use Rattle.jesc_classes.specs.Given.{IsPlaced};
ghost use Rattle.jesc_classes.specs.Sources.{seen};
ghost use Rattle.jesc_members.specs.Fields.{field_in, fields_of};
ghost use Rattle.jesc_member_rules.specs.Judging.{Begins, IsMet, seen_bearer};
ghost use Rattle.jesc_member_rules.specs.Members as spec;
ghost use Rattle.jesc_member_rules.specs.Members.{Judges, constructor_parts, field_parts, member_parts, met as met_so, met_after, method_parts, represented};
ghost use Rattle.jesc_members.specs.Methods.{method_in, methods_of};
ghost use Rattle.jesc_members.specs.Placed.{AreFew, IsPlacedConstructor, IsPlacedField, IsPlacedMember, IsPlacedMethod};
ghost use Rattle.jesc_members.specs.Seen.{seen_field, seen_method};

use crate::bearer::Bearer;
use crate::field_rules::{judge_field, judge_represented};
use crate::known::Known;
use crate::met::Met;
use crate::method_rules::{judge_constructor, judge_method};
use jesc_ast::{ConstructorTree, FieldTree, MemberNode, MemberTree, MethodTree, Word};
use jesc_classes::{GivenClass, RuleError};
use jesc_members::{GivenField, GivenMethod};
use std::alloc::Global;

/// Judges a member of the class of this number behind those met, and keeps what others want to know of it.
///
/// Answers `OutOfMemory` where there is no room for an error's text, for a table of names or for a walk over groups.
pub fn judge_member<'a>(
    alloc: Global,
    known: &Known<'_>,
    number: u32,
    class: &GivenClass<'a>,
    met: &mut Met<'a>,
    member: &'a MemberTree,
) -> Result<(), RuleError>
    requires few { AreFew known.now }
    requires lines { IsLines class.now.lines.now }
    requires placed { IsPlacedMember member.now.node }
    requires class { number < length known.now + 7 }
    requires fields { Begins (fields_of known.now) met.old.fields (field_in number (seen class.now) member.now.node) }
    requires methods { Begins (methods_of known.now) met.old.methods (method_in number (seen class.now) member.now.node) }
    ensures judged { (b : spec.Met) → IsMet met.old b → Judges known.now result (member_parts number (seen class.now) b member.now.node) }
    ensures met { (b : spec.Met) → IsMet met.old b → OnOk result (IsMet met.new (met_after b member.now.node)) }
{
    match member.node.get() {
        MemberNode::Empty => Ok(()),
        MemberNode::Invariant(_) => Ok(()),
        MemberNode::Field(tree) => {
            let tree = tree.get();
            let field = given_field(number, class, false, tree);
            judge_next_field(alloc, known, Bearer::JavaField(tree), &field, met)
        }
        MemberNode::SpecField(tree) => {
            let tree = tree.get();
            let field = given_field(number, class, true, tree);
            judge_next_field(alloc, known, Bearer::SpecField(tree), &field, met)
        }
        MemberNode::Represents(tree) => {
            judge_next_represented(alloc, known, number, class, met, &tree.get().name)
        }
        MemberNode::Method(tree) => {
            let method = given_method(number, class, tree.get());
            judge_next_method(alloc, known, &method, met)
        }
        MemberNode::Constructor(tree) => {
            judge_next_constructor(alloc, known, class, met, tree.get())
        }
    }
}

fn given_field<'a>(
    number: u32,
    class: &GivenClass<'a>,
    is_spec: bool,
    tree: &'a FieldTree,
) -> GivenField<'a>
    ensures { result ≡ record { number = number; class = class.now; is_spec = is_spec; tree = tree.entry } }
{
    GivenField {
        number,
        class: *class,
        is_spec,
        tree,
    }
}

fn given_method<'a>(number: u32, class: &GivenClass<'a>, tree: &'a MethodTree) -> GivenMethod<'a>
    ensures { result ≡ record { number = number; class = class.now; tree = tree.entry } }
{
    GivenMethod {
        number,
        class: *class,
        tree,
    }
}

fn judge_next_field(
    alloc: Global,
    known: &Known<'_>,
    on: Bearer<'_>,
    field: &GivenField<'_>,
    met: &mut Met<'_>,
) -> Result<(), RuleError>
    requires few { AreFew known.now }
    requires lines { IsLines field.now.class.lines.now }
    requires placed { IsPlacedField field.now.tree.now }
    requires class { field.now.number < length known.now + 7 }
    requires given { Begins (fields_of known.now) met.old.fields (seen_field field.now ∷ []) }
    ensures judged { (b : spec.Met) → IsMet met.old b → Judges known.now result (field_parts (seen_bearer on.entry) b.fields (seen_field field.now)) }
    ensures met { (b : spec.Met) → IsMet met.old b → OnOk result (IsMet met.new (met_so (b.fields + 1) b.methods b.represented b.constructors)) }
{
    judge_field(alloc, known, on, met.fields, field)?;
    met.fields += 1;
    Ok(())
}

fn judge_next_method(
    alloc: Global,
    known: &Known<'_>,
    method: &GivenMethod<'_>,
    met: &mut Met<'_>,
) -> Result<(), RuleError>
    requires few { AreFew known.now }
    requires lines { IsLines method.now.class.lines.now }
    requires placed { IsPlacedMethod method.now.tree.now }
    requires class { method.now.number < length known.now + 7 }
    requires given { Begins (methods_of known.now) met.old.methods (seen_method method.now ∷ []) }
    ensures judged { (b : spec.Met) → IsMet met.old b → Judges known.now result (method_parts b.methods (seen_method method.now)) }
    ensures met { (b : spec.Met) → IsMet met.old b → OnOk result (IsMet met.new (met_so b.fields (b.methods + 1) b.represented b.constructors)) }
{
    judge_method(alloc, known, met.methods, method)?;
    met.methods += 1;
    Ok(())
}

fn judge_next_represented<'a>(
    alloc: Global,
    known: &Known<'_>,
    number: u32,
    class: &GivenClass<'_>,
    met: &mut Met<'a>,
    word: &'a Word,
) -> Result<(), RuleError>
    requires lines { IsLines class.now.lines.now }
    requires placed { IsPlaced word.now }
    requires class { number < length known.now + 7 }
    ensures judged { (b : spec.Met) → IsMet met.old b → Judges known.now result (represented number (seen class.now) b.represented word.now ∷ []) }
    ensures met { (b : spec.Met) → IsMet met.old b → OnOk result (IsMet met.new (met_so b.fields b.methods (b.represented ++ word.now ∷ []) b.constructors)) }
{
    judge_represented(alloc, known, number, class, &met.represented, word)?;
    met.represented.add(word.text.as_slice(), 0)?;
    Ok(())
}

fn judge_next_constructor(
    alloc: Global,
    known: &Known<'_>,
    class: &GivenClass<'_>,
    met: &mut Met<'_>,
    tree: &ConstructorTree,
) -> Result<(), RuleError>
    requires lines { IsLines class.now.lines.now }
    requires placed { IsPlacedConstructor tree.now }
    ensures judged { (b : spec.Met) → IsMet met.old b → Judges known.now result (constructor_parts (seen class.now) b.constructors tree.now) }
    ensures met { (b : spec.Met) → IsMet met.old b → OnOk result (IsMet met.new (met_so b.fields b.methods b.represented (b.constructors ++ tree.now ∷ []))) }
{
    judge_constructor(alloc, known, class, met.constructors.as_slice(), tree)?;
    met.constructors.push(tree.params.len())?;
    Ok(())
}
