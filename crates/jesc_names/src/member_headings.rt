//! The program of class and member headings.

ghost use Rattle.std.specs.Prelude.{◌≡◌, map, IfOk};
ghost use Rattle.std.specs.List.{All};
ghost use Rattle.jesc_classes.specs.Given.{AreGiven};
ghost use Rattle.jesc_classes.specs.Headings as headings;
ghost use Rattle.jesc_classes.specs.Headings.{sources};
ghost use Rattle.jesc_classes.specs.Tables.{AreTables};
ghost use Rattle.jesc_members.specs.Fields.{fields_of};
ghost use Rattle.jesc_names.specs.Judged.{JudgesBoth};
ghost use Rattle.jesc_member_rules.specs.Members.{Judges, member_walk};
ghost use Rattle.jesc_members.specs.Placed.{AreFew, AreMembersPlaced};
ghost use Rattle.jesc_names.specs.Program.{IsProgramOf};
ghost use Rattle.jesc_members.specs.Seen.{seen_field};
ghost use Rattle.jesc_tree.specs.Programs.{IsLawful};

use crate::tables::program_of;
use jesc_ast::File;
use jesc_classes::{ClassTables, Classes, RuleError, class_tables};
use jesc_member_rules::{judge_members, throwables};
use jesc_members::{GivenField, Groups, Inheritance, given_fields, given_methods};
use jesc_text::Boxed;
use jesc_tree::Program;
use std::alloc::Global;

/// The program of these files' class and member headings: without bodies, initial values, specifications, invariants and
/// represents clauses, but with the constants, and with the predefined and generated constructors and their case.
///
/// All files together make one program. Answers the first rule broken in class headings, as `class_headings` does, and
/// where none is, the first one broken on members: class by class as they are written, first what a class inherits, and
/// then its members' words from left to right. Answers `OutOfMemory` where there is no room for the tables.
pub fn headings(alloc: Global, files: &[File]) -> Result<Program, RuleError>
    requires given { ∥ AreGiven files.now ∥₁ }
    ensures judged { JudgesBoth (sources files.now) result }
    ensures program { IfOk result (λ p. ∥ IsProgramOf (sources files.now) p.classes p.fields p.methods ∥₁) }
    ensures lawful { IfOk result (λ p. ∥ IsLawful p.classes p.fields p.methods ∥₁) }
{
    let classes = Classes::new(alloc, files)?;
    let tables = class_tables(alloc, files, &classes)?;
    member_headings(alloc, &classes, tables)
}

/// The program of class headings that break no rule, with members.
fn member_headings(
    alloc: Global,
    classes: &Classes<'_>,
    tables: ClassTables,
) -> Result<Program, RuleError>
    requires few { AreFew classes.now }
    requires placed { All AreMembersPlaced classes.now }
    requires tables { AreTables classes.now tables }
    requires headed { headings.AllHold classes.now (headings.walk classes.now) }
    ensures judged { Judges classes.now result (member_walk classes.now) }
    ensures program { IfOk result (λ p. ∥ IsProgramOf classes.now p.classes p.fields p.methods ∥₁) }
    ensures lawful { IfOk result (λ p. ∥ IsLawful p.classes p.fields p.methods ∥₁) }
{
    let fields = given_fields(alloc, classes)?;
    let methods = given_methods(alloc, classes)?;
    let inherited = Inheritance::new(
        alloc,
        classes,
        tables.graph.as_slice(),
        tables.order.as_slice(),
        fields.as_slice(),
        methods.as_slice(),
    )?;
    let inheritance = Boxed::new(alloc, inherited)?;
    let groups = Groups::new(alloc, inheritance.get(), fields.as_slice())?;
    judge_all(
        alloc,
        classes,
        &tables,
        inheritance.get(),
        &groups,
        fields.as_slice(),
    )?;
    Ok(program_of(alloc, classes, tables, fields.as_slice(), &groups)?)
}

/// The rules on members, by the tables of class headings.
fn judge_all(
    alloc: Global,
    classes: &Classes<'_>,
    tables: &ClassTables,
    inheritance: &Inheritance<'_>,
    groups: &Groups<'_>,
    fields: &[GivenField<'_>],
) -> Result<(), RuleError>
    requires few { AreFew classes.now }
    requires placed { All AreMembersPlaced classes.now }
    requires tables { AreTables classes.now tables.now }
    requires inherited { inheritance.now ≡ classes.now }
    requires grouped { groups.now ≡ classes.now }
    requires fields { map seen_field fields.now ≡ fields_of classes.now }
    ensures { Judges classes.now result (member_walk classes.now) }
{
    let throwables = throwables(alloc, tables.graph.as_slice(), tables.order.as_slice())?;
    judge_members(
        alloc,
        classes,
        inheritance,
        groups,
        throwables.as_slice(),
        fields,
    )
}
