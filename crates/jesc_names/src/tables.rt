//! The tables of a program whose headings break no rule.

ghost use Rattle.std.specs.Prelude.{◌≡◌, map, IfOk};
ghost use Rattle.std.specs.List.{All};
ghost use Rattle.jesc_classes.specs.Headings as headings;
ghost use Rattle.jesc_classes.specs.Tables.{AreTables};
ghost use Rattle.jesc_members.specs.Fields.{fields_of};
ghost use Rattle.jesc_member_rules.specs.Members.{AllHold, member_walk};
ghost use Rattle.jesc_members.specs.Placed.{AreFew, AreMembersPlaced};
ghost use Rattle.jesc_names.specs.Program.{IsProgramOf};
ghost use Rattle.jesc_members.specs.Seen.{seen_field};
ghost use Rattle.jesc_tree.specs.Programs.{IsLawful};

use crate::class_ids::ClassIds;
use crate::class_rows::with_members;
use crate::field_order::{field_order, fields_by_class};
use crate::field_table::field_table;
use crate::members::FieldIds;
use crate::method_table::method_table;
use crate::places::places_of;
use jesc_classes::{ClassTables, Classes};
use jesc_members::{GivenField, Groups};
use jesc_text::OutOfMemory;
use jesc_tree::Program;
use std::alloc::Global;

/// The program of class and member headings, of which no one breaks a rule.
///
/// The ids of classes are those of their tables. Those of fields and methods go class by class in the order of the
/// classes' ids, and in a class as they are written, a generated constructor first. Answers `OutOfMemory` where there is
/// no room for the tables.
pub fn program_of(
    alloc: Global,
    classes: &Classes<'_>,
    tables: ClassTables,
    fields: &[GivenField<'_>],
    groups: &Groups<'_>,
) -> Result<Program, OutOfMemory>
    requires few { AreFew classes.now }
    requires placed { All AreMembersPlaced classes.now }
    requires tables { AreTables classes.now tables }
    requires headed { headings.AllHold classes.now (headings.walk classes.now) }
    requires held { AllHold classes.now (member_walk classes.now) }
    requires fields { map seen_field fields.now ≡ fields_of classes.now }
    requires groups { groups.now ≡ classes.now }
    ensures program { IfOk result (λ p. ∥ IsProgramOf classes.now p.classes p.fields p.methods ∥₁) }
    ensures lawful { IfOk result (λ p. ∥ IsLawful p.classes p.fields p.methods ∥₁) }
{
    let order = tables.order.as_slice();
    let ids = places_of(alloc, order, order.len())?;
    let names = ClassIds {
        classes,
        order,
        ids: ids.as_slice(),
    };
    let lists = fields_by_class(alloc, order.len(), fields)?;
    let numbers = field_order(alloc, lists.as_slice(), order)?;
    let field_ids = places_of(alloc, numbers.numbers.as_slice(), fields.len())?;
    let by_id = FieldIds {
        order: numbers.numbers.as_slice(),
        ids: field_ids.as_slice(),
    };
    let rows = field_table(alloc, names, groups, by_id, fields)?;
    let methods = method_table(alloc, names)?;
    let with_members = with_members(
        alloc,
        tables.classes.as_slice(),
        numbers.counts.as_slice(),
        methods.counts.as_slice(),
    )?;
    Ok(Program::new(with_members, rows, methods.methods))
}
