//! Data groups: which field is in which model field.

ghost use Rattle.std.specs.Prelude.{ℕ, ◌≡◌, ◌↔◌, ◌<◌, ◌^◌, nat_eq, true, length, map, IfOk};
ghost use Rattle.std.specs.List.{Contains, IsDistinct};
ghost use Rattle.jesc_classes.specs.Order.{Above, IsWithin};
ghost use Rattle.jesc_classes.specs.Ranks.{AreRanks};
ghost use Rattle.jesc_members.specs.Fields.{fields_of};
ghost use Rattle.jesc_members.specs.Groups.{IsMember};
ghost use Rattle.jesc_members.specs.Placed.{AreFew};
ghost use Rattle.jesc_members.specs.Seen.{seen_field};

use crate::fields::GivenField;
use crate::grouping::group_graph;
use crate::inherit::Inheritance;
use crate::reached::reached;
use crate::reversed::reversed;
use jesc_classes::{is_on_cycle, ranks};
use jesc_text::{List, OutOfMemory};
use std::alloc::Global;
use std::marker::Model;

/// The model fields that each field is in. Contracts see the list of the given classes alone.
#[derive(Drop)]
pub struct Groups<'a> {
    inheritance: &'a Inheritance<'a>,
    /// Of each field by number, the model fields that it names.
    graph: List<List<u32>>,
    /// Of each field by number, the fields that name it; of others than model fields none.
    named_by: Vec<List<u32>>,
    /// A rank of each field, by which most fields are seen to be on no cycle.
    ranks: List<u32>,
}

impl<'a> Model for Groups<'a> {
    ghost use Rattle.std.specs.Prelude.{List as Items};
    ghost use Rattle.jesc_classes.specs.Headings.{Source};
    ghost use Rattle.jesc_ast.specs.contracts.class.ClassTree as class_tree;
    ghost use Rattle.std.specs.Coded.{codes};
    ghost use Rattle.jesc_members.specs.GroupTables.{AreGroupTables};

    ghost Value = { Items Source };

    ghost coded = { Prim.hlevel (codes, class_tree.the_row.coded) };

    ghost view = { λ g. g.inheritance.now };

    ghost invariant = { λ g. AreGroupTables g.inheritance.now g.graph g.named_by.items g.ranks };
}

impl<'a> Groups<'a> {
    /// The groups of the fields that these classes declare. Answers `OutOfMemory` where there is no room for the lists.
    pub fn new(
        alloc: Global,
        inheritance: &'a Inheritance<'a>,
        fields: &[GivenField<'_>],
    ) -> Result<Groups<'a>, OutOfMemory>
        requires few { AreFew inheritance.now }
        requires fields { map seen_field fields.now ≡ fields_of inheritance.now }
        ensures { IfOk result (λ g. g ≡ inheritance.now) }
    {
        let graph = group_graph(alloc, inheritance, fields)?;
        let named_by = reversed(alloc, graph.as_slice())?;
        let ranks = ranks(alloc, graph.as_slice())?;
        Ok(Groups {
            inheritance,
            graph,
            named_by,
            ranks,
        })
    }

    /// Whether the field of this number is a member of itself.
    ///
    /// Answers `OutOfMemory` where there is no room for the walk.
    pub fn is_on_cycle(&self, alloc: Global, field: u32) -> Result<bool, OutOfMemory>
        requires { field < length (fields_of self.now) }
        ensures { IfOk result (λ yes. (yes ≡ true) ↔ IsMember self.now field field) }
    {
        is_above_itself(alloc, self.graph.as_slice(), self.ranks.as_slice(), field)
    }

    /// The numbers of all members of the field of this number, direct or not, each once and in no order.
    ///
    /// Answers `OutOfMemory` where there is no room for the walk. The time is in proportion to the members' own groups.
    pub fn members(&self, alloc: Global, field: u32) -> Result<List<u32>, OutOfMemory>
        requires { field < length (fields_of self.now) }
        ensures all { IfOk result (λ members. (f : ℕ) → Contains members f ↔ IsMember self.now f field) }
        ensures once { IfOk result (λ members. IsDistinct nat_eq members) }
    {
        reached(alloc, self.named_by.as_slice(), field)
    }
}

/// Whether a number is above itself.
fn is_above_itself(
    alloc: Global,
    graph: &[List<u32>],
    ranks: &[u32],
    number: u32,
) -> Result<bool, OutOfMemory>
    requires few { length graph.now < 2 ^ 32 }
    requires within { IsWithin graph.now }
    requires ranks { AreRanks graph.now ranks.now }
    requires number { number < length graph.now }
    ensures { IfOk result (λ yes. (yes ≡ true) ↔ Above graph.now number number) }
{
    for above in graph[number as usize].as_slice() {
        if is_on_cycle(alloc, graph, ranks, number, *above)? {
            return Ok(true);
        }
    }
    Ok(false)
}
