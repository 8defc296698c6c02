//! Who of the given classes is whose supertype.

ghost use Rattle.std.specs.Prelude.{◌≡◌, ◌↔◌, true, IfOk};
ghost use Rattle.std.specs.List.{Contains};
ghost use Rattle.jesc_classes.specs.Clauses.{MayStand};
ghost use Rattle.jesc_classes.specs.Headings.{IsOnCycle, graph_of};
ghost use Rattle.jesc_classes.specs.Order.{supers};

use crate::cycle;
use crate::source::Classes;
use jesc_text::{List, OutOfMemory};
use std::alloc::Global;
use std::marker::Model;

/// The clauses of a heading that name supertypes.
#[derive(Drop, Clone, Copy)]
pub enum Clause {
    Extends,
    Implements,
}

/// The given classes, and which of them are their own supertypes. Contracts see the list of the classes alone.
#[derive(Drop)]
pub struct Hierarchy<'a> {
    pub classes: &'a Classes<'a>,
    /// Of each class by number, its supertypes.
    pub graph: &'a [List<u32>],
    /// Where it is None, no class is its own supertype.
    pub ranks: Option<&'a [u32]>,
}

impl<'a> Model for Hierarchy<'a> {
    ghost use Rattle.std.specs.Prelude.{List as Items};
    ghost use Rattle.jesc_classes.specs.Clauses.{AreSupertypes};
    ghost use Rattle.jesc_classes.specs.Headings.{Source};
    ghost use Rattle.jesc_ast.specs.contracts.class.ClassTree as class_tree;
    ghost use Rattle.std.specs.Coded.{codes};

    ghost Value = { Items Source };

    ghost coded = { Prim.hlevel (codes, class_tree.the_row.coded) };

    ghost view = { λ h. h.classes.now };

    ghost invariant = { λ h. AreSupertypes h.classes.now h.graph.now h.ranks };
}

impl<'a> Hierarchy<'a> {
    /// Whether a cycle goes through the class and one that its heading names.
    ///
    /// Answers `OutOfMemory` where there is no room for the walk over supertypes.
    pub fn is_on_cycle(&self, alloc: Global, class: u32, above: u32) -> Result<bool, OutOfMemory>
        requires { Contains (supers (graph_of self.now) class) above }
        ensures { IfOk result (λ yes. (yes ≡ true) ↔ IsOnCycle self.now class above) }
    {
        match self.ranks {
            Some(ranks) => cycle::is_on_cycle(alloc, self.graph, ranks, class, above),
            None => Ok(false),
        }
    }

    /// Whether that clause of a class or an interface may name a class of this kind. Takes no memory.
    pub fn may_stand(&self, clause: Clause, is_interface: bool, above: u32) -> bool
        ensures { (result ≡ true) ↔ MayStand self.now clause is_interface above }
    {
        let wants_interface = match clause {
            Clause::Extends => is_interface,
            Clause::Implements => true,
        };
        if wants_interface {
            self.classes.is_interface(above)
        } else {
            !self.classes.is_interface(above) && !self.classes.is_final(above)
        }
    }
}
