//! The classes of a program from their headings.

ghost use Rattle.std.specs.Prelude.{◌≡◌, ◌<◌, ◌+◌, ◌^◌, [], length, IfOk};
ghost use Rattle.std.specs.List.{All};
ghost use Rattle.jesc_classes.specs.Entries.{AreEntries, ExtendsOne, IsNumbering};
ghost use Rattle.jesc_classes.specs.Given.{AreGiven, ArePlaced};
ghost use Rattle.jesc_classes.specs.Headings.{Judges, graph_of, sources, walk};
ghost use Rattle.jesc_classes.specs.Order.{IsOrder};
ghost use Rattle.jesc_classes.specs.Resolved.{AreHeadings};
ghost use Rattle.jesc_classes.specs.Tables.{AreTables};
ghost use Rattle.jesc_tree.specs.Programs.{IsLawful};

use crate::cycle::ranks;
use crate::entry::entry;
use crate::graph::supertypes;
use crate::ids::ids_of;
use crate::judge::judge;
use crate::order::order;
use crate::rule::RuleError;
use crate::source::Classes;
use jesc_ast::File;
use jesc_text::{List, OutOfMemory};
use jesc_tree::{Class, Program, predefined};
use std::alloc::Global;

/// The program of these files' class headings, without members: the predefined classes, and then the given ones in the
/// order of their ids.
///
/// All files together make one program. The ids 0 to 6 are those of the predefined classes; from then on, again and
/// again, the next id goes to the first class in source order whose supertypes all have ids. Answers the first rule
/// broken: the headings in source order, each one's words from left to right, and at one word N1 before N3 before N9.
/// Answers `OutOfMemory` where there is no room for the tables.
pub fn class_headings(alloc: Global, files: &[File]) -> Result<Program, RuleError>
    requires given { ∥ AreGiven files.now ∥₁ }
    ensures judged { Judges (sources files.now) result (walk (sources files.now)) }
    ensures table { IfOk result (λ p. ∥ AreHeadings (sources files.now) p.classes ∥₁) }
    ensures lawful { IfOk result (λ p. ∥ IsLawful p.classes p.fields p.methods ∥₁) }
{
    let given = Classes::new(alloc, files)?;
    let tables = class_tables(alloc, files, &given)?;
    Ok(Program::new(tables.classes, List::new(alloc), List::new(alloc)))
}

/// What class headings give: who is whose supertype, the order of the ids, and the table of classes.
#[derive(Drop)]
pub struct ClassTables {
    /// Of each class by number, its supertypes: the superclass first, then the interfaces in order.
    pub graph: List<List<u32>>,
    /// The numbers of the classes in the order of their ids.
    pub order: List<u32>,
    /// The classes in the order of their ids, without members.
    pub classes: List<Class>,
}

/// The tables of these files' class headings, whose classes by name are given.
///
/// Answers the first rule broken, as `class_headings` does, and `OutOfMemory` where there is no room for the tables.
pub fn class_tables(
    alloc: Global,
    files: &[File],
    given: &Classes<'_>,
) -> Result<ClassTables, RuleError>
    requires given { ∥ AreGiven files.now ∥₁ }
    requires same { given.now ≡ sources files.now }
    ensures judged { Judges given.now result (walk given.now) }
    ensures tables { IfOk result (AreTables given.now) }
{
    let graph = supertypes(alloc, given)?;
    let order = order(alloc, graph.as_slice())?;
    judge_all(alloc, given, graph.as_slice(), order.as_slice())?;
    let classes = table(alloc, given, order.as_slice())?;
    Ok(ClassTables {
        graph,
        order,
        classes,
    })
}

/// The rules on headings, by the order of ids: where it lacks a class, there is a cycle.
fn judge_all(
    alloc: Global,
    given: &Classes<'_>,
    graph: &[List<u32>],
    order: &[u32],
) -> Result<(), RuleError>
    requires few { length given.now + 7 < 2 ^ 32 }
    requires placed { All ArePlaced given.now }
    requires graph { graph.now ≡ graph_of given.now }
    requires order { ∥ IsOrder (graph_of given.now) [] order.now ∥₁ }
    ensures { Judges given.now result (walk given.now) }
{
    if order.len() < graph.len() {
        let ranks = ranks(alloc, graph)?;
        judge(alloc, given, graph, Some(ranks.as_slice()))
    } else {
        judge(alloc, given, graph, None)
    }
}

/// The table of classes: the predefined ones, and then the given ones in the order of their ids.
fn table(alloc: Global, given: &Classes<'_>, order: &[u32]) -> Result<List<Class>, OutOfMemory>
    requires few { length given.now + 7 < 2 ^ 32 }
    requires placed { All ArePlaced given.now }
    requires one { All ExtendsOne given.now }
    requires order { IsNumbering given.now order.now }
    requires whole { length order.now ≡ length given.now + 7 }
    ensures { IfOk result (AreEntries given.now order.now) }
{
    let ids = ids_of(alloc, order)?;
    let mut classes = predefined(alloc)?;
    for id in 7..order.len() {
        let class = given.list()[order[id] as usize - 7];
        classes.push(entry(alloc, given, ids.as_slice(), class)?)?;
    }
    Ok(classes)
}
