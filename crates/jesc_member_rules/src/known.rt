//! What members are judged by.

ghost use Rattle.std.specs.Prelude.{◌≡◌, ◌↔◌, ◌<◌, ◌+◌, ℕ, Some, true, length, slice_get};
ghost use Rattle.jesc_ast.specs.Lines.{place_at};
ghost use Rattle.jesc_classes.specs.Headings.{class_named};
ghost use Rattle.jesc_classes.specs.Sources.{seen};
ghost use Rattle.jesc_members.specs.Fields.{fields_of, own_field};
ghost use Rattle.jesc_members.specs.Groups.{NamesModel};
ghost use Rattle.jesc_member_rules.specs.Judging.{Decides};
ghost use Rattle.jesc_member_rules.specs.Members.{thrown, written_type};
ghost use Rattle.jesc_members.specs.Methods.{methods_of, own_method};
ghost use Rattle.jesc_members.specs.Seen.{seen_field, seen_method};

use crate::answer::if_broken;
use crate::modifiers::is_primitive;
use jesc_ast::{TypeTree, Word};
use jesc_classes::{Classes, GivenClass, Rule};
use jesc_members::{GivenField, GivenMethod, Groups, Inheritance, is_model};
use std::marker::Model;

/// The given classes, and what is known of their members. Contracts see the list of the classes alone.
#[derive(Drop)]
pub struct Known<'a> {
    pub classes: &'a Classes<'a>,
    pub inheritance: &'a Inheritance<'a>,
    pub groups: &'a Groups<'a>,
    /// Of each class by number, whether it may be thrown.
    pub throwables: &'a [bool],
    /// The fields that the classes declare.
    pub fields: &'a [GivenField<'a>],
}

impl<'a> Model for Known<'a> {
    ghost use Rattle.std.specs.Prelude.{List as Items};
    ghost use Rattle.jesc_classes.specs.Headings.{Source};
    ghost use Rattle.jesc_ast.specs.contracts.class.ClassTree as class_tree;
    ghost use Rattle.std.specs.Coded.{codes};
    ghost use Rattle.jesc_member_rules.specs.Judging.{IsKnown};

    ghost Value = { Items Source };

    ghost coded = { Prim.hlevel (codes, class_tree.the_row.coded) };

    ghost view = { λ k. k.classes.now };

    ghost invariant = { λ k. IsKnown k.classes.now k.inheritance.now k.groups.now k.throwables.now k.fields.now };
}

impl<'a> Known<'a> {
    /// Whether the name means a model field in the class. Takes no memory.
    pub fn names_model(&self, class: u32, name: &[u8]) -> bool
        requires { class < length self.now + 7 }
        ensures { (result ≡ true) ↔ ((g : ℕ) × NamesModel self.now class name.now g) }
    {
        match self.inheritance.field(class, name) {
            Some(number) => match self.fields.get(number as usize) {
                Some(field) => is_model(field),
                None => false,
            },
            None => false,
        }
    }

    /// Whether the class of a field of this number declares one of its name before. Takes no memory.
    pub fn is_later_field(&self, number: u32, field: &GivenField<'_>) -> bool
        requires class { field.now.number < length self.now + 7 }
        requires given { slice_get (fields_of self.now) number ≡ Some (seen_field field.now) }
        ensures { (result ≡ true) ↔ ((k : ℕ) × (own_field self.now field.now.tree.now.name.text field.now.number ≡ Some k) × (k < number)) }
    {
        let name = field.tree.name.text.as_slice();
        match self.inheritance.field(field.number, name) {
            Some(first) => first < number,
            None => false,
        }
    }

    /// Whether the class of a method of this number declares one of its name and number of parameters before. Takes no
    /// memory.
    pub fn is_later_method(&self, number: u32, method: &GivenMethod<'_>) -> bool
        requires class { method.now.number < length self.now + 7 }
        requires given { slice_get (methods_of self.now) number ≡ Some (seen_method method.now) }
        ensures { (result ≡ true) ↔ ((k : ℕ) × (own_method self.now method.now.tree.now.name.text (length method.now.tree.now.params) method.now.number ≡ Some k) × (k < number)) }
    {
        let name = method.tree.name.text.as_slice();
        match self
            .inheritance
            .method(method.number, name, method.tree.params.len())
        {
            Some(first) => first < number,
            None => false,
        }
    }

    /// The rule that a written type breaks. Takes no memory.
    pub fn broken_by_type(&self, class: &GivenClass<'_>, ty: &TypeTree) -> Option<Rule>
        ensures { Decides self.now (written_type (seen class.now) ty.now) (place_at class.now.lines.now ty.now.span) ty.now.base result }
    {
        let base = ty.base.as_slice();
        if is_primitive(base) {
            return None;
        }
        match self.classes.find(base) {
            None => Some(Rule::N1),
            Some(_) => None,
        }
    }

    /// The rule that a name behind `throws` breaks. Takes no memory.
    pub fn broken_by_thrown(&self, class: &GivenClass<'_>, word: &Word) -> Option<Rule>
        ensures { Decides self.now (thrown (seen class.now) word.now) (place_at class.now.lines.now word.now.span) word.now.text result }
    {
        match self.classes.find(word.text.as_slice()) {
            None => Some(Rule::N1),
            Some(number) => if_broken(!self.throwables[number as usize], Rule::Y1),
        }
    }
}
