//! What each class inherits: which field and method a name means in it, and which methods meet in it.

ghost use Rattle.std.specs.Prelude.{◌≡◌, ◌↔◌, ◌<◌, ◌+◌, ◌^◌, true, false, length, map, slice_get, Some, IfOk, IfSome};
ghost use Rattle.std.specs.List.{Contains};
ghost use Rattle.jesc_classes.specs.Headings.{graph_of};
ghost use Rattle.jesc_members.specs.Fields.{fields_of};
ghost use Rattle.jesc_lookup.specs.Lines.{AreExtras};
ghost use Rattle.jesc_members.specs.Meanings.{FieldFound, MethodFound};
ghost use Rattle.jesc_members.specs.Methods.{MethodOf, methods_of, is_final};
ghost use Rattle.jesc_lookup.specs.Numbering.{IsArranged};
ghost use Rattle.jesc_members.specs.Placed.{AreFew};
ghost use Rattle.jesc_members.specs.Overriding.{Differ, IsLikeAbove, IsOneHidden, IsOpen, IsPairAbove};
ghost use Rattle.jesc_members.specs.Seen.{seen_field, seen_method};
ghost use Rattle.jesc_members.specs.Summed.{DiffersFrom, HidesWith, IsSealed};

use crate::field_layers::FieldLayers;
use crate::fields::GivenField;
use crate::method_layers::MethodLayers;
use crate::methods::{GivenMethod, is_private, is_static};
use crate::signatures::is_same_signature;
use crate::summary::Summary;
use crate::summary_layers::SummaryLayers;
use jesc_classes::Classes;
use jesc_lookup::extras;
use jesc_text::{List, OutOfMemory};
use std::alloc::Global;
use std::marker::Model;

/// What is known of a method against those like it above its class.
#[derive(Drop, Clone, Copy)]
pub struct Overridden {
    /// Whether one has another signature.
    pub differs: bool,
    /// Whether one is there and it or the method itself is private or static.
    pub is_hidden: bool,
    /// Whether one is final.
    pub is_final: bool,
}

/// What the classes inherit. Contracts see the list of the given classes alone.
#[derive(Drop)]
pub struct Inheritance<'a> {
    classes: &'a Classes<'a>,
    fields: FieldLayers<'a>,
    methods: MethodLayers<'a>,
    summaries: SummaryLayers,
    declared: &'a [GivenMethod<'a>],
}

impl<'a> Model for Inheritance<'a> {
    ghost use Rattle.std.specs.Prelude.{List as Items};
    ghost use Rattle.jesc_classes.specs.Headings.{Source};
    ghost use Rattle.jesc_members.specs.Inherited.{IsInherited};
    ghost use Rattle.jesc_ast.specs.contracts.class.ClassTree as class_tree;
    ghost use Rattle.std.specs.Coded.{codes};

    ghost Value = { Items Source };

    ghost coded = { Prim.hlevel (codes, class_tree.the_row.coded) };

    ghost view = { λ i. i.classes.now };

    ghost invariant = { λ i. IsInherited i.classes.now i.fields i.methods i.summaries i.declared.now };
}

impl<'a> Inheritance<'a> {
    /// What these classes inherit. `graph` has the supertypes of each class, `order` the classes, each behind its
    /// supertypes, and `fields` and `methods` have what the classes declare.
    ///
    /// Answers `OutOfMemory` where there is no room for the tables. No walk here is exponential, and nothing is quadratic
    /// over a chain of classes.
    pub fn new(
        alloc: Global,
        classes: &'a Classes<'a>,
        graph: &[List<u32>],
        order: &[u32],
        fields: &'a [GivenField<'a>],
        methods: &'a [GivenMethod<'a>],
    ) -> Result<Inheritance<'a>, OutOfMemory>
        requires few { AreFew classes.now }
        requires graph { graph.now ≡ graph_of classes.now }
        requires order { IsArranged graph.now order.now }
        requires fields { map seen_field fields.now ≡ fields_of classes.now }
        requires methods { map seen_method methods.now ≡ methods_of classes.now }
        ensures { IfOk result (λ i. i ≡ classes.now) }
    {
        let extras = extras(alloc, graph, order)?;
        let fields = FieldLayers::new(alloc, graph, order, extras.as_slice(), fields)?;
        let layers = MethodLayers::new(alloc, graph, order, extras.as_slice(), methods)?;
        let keys = layers.key_of.as_slice();
        let rows = layers.rows.as_slice();
        let summaries = SummaryLayers::new(
            alloc,
            graph,
            order,
            extras.as_slice(),
            methods,
            keys,
            rows,
        )?;
        Ok(Inheritance {
            classes,
            fields,
            methods: layers,
            summaries,
            declared: methods,
        })
    }

    /// The number of the field that a name means in the class. Takes no memory.
    pub fn field(&self, class: u32, name: &[u8]) -> Option<u32>
        requires { class < length self.now + 7 }
        ensures { FieldFound self.now name.now class result }
    {
        self.fields.find(class, name)
    }

    /// The number of the method that a name and a number of parameters mean in the class. Takes no memory.
    pub fn method(&self, class: u32, name: &[u8], count: usize) -> Option<u32>
        requires { class < length self.now + 7 }
        ensures { MethodFound self.now name.now count class result }
    {
        self.methods.find(class, name, count)
    }

    /// Whether some name and number of parameters mean a method without a body in the class. Takes no memory.
    pub fn is_open(&self, class: u32) -> bool
        requires { class < length self.now + 7 }
        ensures { (result ≡ true) ↔ IsOpen self.now class }
    {
        self.methods.is_open(class)
    }

    /// Whether two types above the class declare like methods of different signatures. Takes no memory.
    pub fn has_differing(&self, class: u32) -> bool
        requires { class < length self.now + 7 }
        ensures { (result ≡ true) ↔ IsPairAbove self.now class Differ }
    {
        self.summaries.above[class as usize].differs
    }

    /// Whether two types above the class declare like methods, of which one is private or static. Takes no memory.
    pub fn has_hidden(&self, class: u32) -> bool
        requires { class < length self.now + 7 }
        ensures { (result ≡ true) ↔ IsPairAbove self.now class IsOneHidden }
    {
        self.summaries.above[class as usize].hides
    }

    /// How a method of a given class stands to those like it above its class. Takes no memory.
    pub fn overridden(&self, method: &GivenMethod<'_>) -> Overridden
        requires { Contains (methods_of self.now) (seen_method method.now) }
        ensures differs { (result.differs ≡ true) ↔ IsLikeAbove self.now (seen_method method.now) (Differ (seen_method method.now)) }
        ensures hidden { (result.is_hidden ≡ true) ↔ IsLikeAbove self.now (seen_method method.now) (IsOneHidden (seen_method method.now)) }
        ensures sealed { (result.is_final ≡ true) ↔ IsLikeAbove self.now (seen_method method.now) (λ b. is_final b.tree ≡ true) }
    {
        let key = self
            .methods
            .key(method.tree.name.text.as_slice(), method.tree.params.len());
        compared(
            self.declared,
            method,
            self.summaries.above(method.number, key),
        )
    }
}

/// How a method stands to others like it, of which that is known.
fn compared(
    methods: &[GivenMethod<'_>],
    method: &GivenMethod<'_>,
    above: Option<Summary>,
) -> Overridden
    requires { IfSome above (λ s. s.sample < length methods.now) }
    ensures differs { (result.differs ≡ true) ↔ DiffersFrom (map seen_method methods.now) (seen_method method.now) above }
    ensures hidden { (result.is_hidden ≡ true) ↔ HidesWith (seen_method method.now) above }
    ensures sealed { (result.is_final ≡ true) ↔ IsSealed above }
{
    match above {
        None => Overridden {
            differs: false,
            is_hidden: false,
            is_final: false,
        },
        Some(above) => Overridden {
            differs: is_unlike(methods, method, above),
            is_hidden: is_hidden_beside(method, above),
            is_final: above.sealed,
        },
    }
}

/// Whether one of these has another signature.
fn is_unlike(methods: &[GivenMethod<'_>], method: &GivenMethod<'_>, above: Summary) -> bool
    requires { above.sample < length methods.now }
    ensures { (result ≡ true) ↔ DiffersFrom (map seen_method methods.now) (seen_method method.now) (Some above) }
{
    if above.mixed {
        return true;
    }
    !is_same_signature(method.tree, methods[above.sample as usize].tree)
}

/// Whether the method or one of these is private or static.
fn is_hidden_beside(method: &GivenMethod<'_>, above: Summary) -> bool
    ensures { (result ≡ true) ↔ HidesWith (seen_method method.now) (Some above) }
{
    above.hides || is_private(method.tree) || is_static(method.tree)
}
