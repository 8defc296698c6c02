//! The table of classes with the ids of their fields and methods.

ghost use Rattle.std.specs.Prelude.{ℕ, ◌≡◌, ◌+◌, length, map, IfOk, OnOk};
ghost use Rattle.jesc_names.specs.Program.{counted, joined};
ghost use Rattle.jesc_names.specs.TablesRows.{plain, total};

use jesc_text::{List, OutOfMemory};
use jesc_tree::{Class, FieldId, MethodId};
use std::alloc::Global;

/// These classes with ids of fields and methods, of which each one has so many, and which go on from class to class.
///
/// Answers `OutOfMemory` where there is no room for the table, or where ids do not suffice.
pub fn with_members(
    alloc: Global,
    classes: &[Class],
    field_counts: &[usize],
    method_counts: &[usize],
) -> Result<List<Class>, OutOfMemory>
    requires fields { length field_counts.now ≡ length classes.now }
    requires methods { length method_counts.now ≡ length classes.now }
    ensures plain { IfOk result (λ cs. map plain cs ≡ map plain classes.now) }
    ensures field_counts { IfOk result (λ cs. map (λ c. length c.fields) cs ≡ field_counts.now) }
    ensures method_counts { IfOk result (λ cs. map (λ c. length c.methods) cs ≡ method_counts.now) }
    ensures field_ids { IfOk result (λ cs. map (λ f. f.0) (joined (map (λ c. c.fields) cs)) ≡ counted 0 (total field_counts.now)) }
    ensures method_ids { IfOk result (λ cs. map (λ m. m.0) (joined (map (λ c. c.methods) cs)) ≡ counted 0 (total method_counts.now)) }
{
    let mut table = List::new(alloc);
    let mut next_field = 0;
    let mut next_method = 0;
    for (i, class) in classes.iter().enumerate() {
        let fields = field_ids(alloc, &mut next_field, field_counts[i])?;
        let methods = method_ids(alloc, &mut next_method, method_counts[i])?;
        table.push(with_lists(alloc, class, fields, methods)?)?;
    }
    Ok(table)
}

/// The class with other lists of fields and methods.
fn with_lists(
    alloc: Global,
    class: &Class,
    fields: List<FieldId>,
    methods: List<MethodId>,
) -> Result<Class, OutOfMemory>
    ensures plain { IfOk result (λ c. plain c ≡ plain class.now) }
    ensures fields { IfOk result (λ c. c.fields ≡ fields) }
    ensures methods { IfOk result (λ c. c.methods ≡ methods) }
{
    let mut copy = class.copy(alloc)?;
    copy.fields = fields;
    copy.methods = methods;
    Ok(copy)
}

/// So many ids of fields from the next one on.
fn field_ids(alloc: Global, next: &mut u32, count: usize) -> Result<List<FieldId>, OutOfMemory>
    ensures ids { IfOk result (λ ids. map (λ f. f.0) ids ≡ counted next.old count) }
    ensures next { OnOk result (next.new ≡ next.old + count) }
{
    let mut ids = List::new(alloc);
    for _ in 0..count {
        ids.push(FieldId(step(next)?))?;
    }
    Ok(ids)
}

/// So many ids of methods from the next one on.
fn method_ids(alloc: Global, next: &mut u32, count: usize) -> Result<List<MethodId>, OutOfMemory>
    ensures ids { IfOk result (λ ids. map (λ m. m.0) ids ≡ counted next.old count) }
    ensures next { OnOk result (next.new ≡ next.old + count) }
{
    let mut ids = List::new(alloc);
    for _ in 0..count {
        ids.push(MethodId(step(next)?))?;
    }
    Ok(ids)
}

/// The next id, behind which one more comes.
fn step(next: &mut u32) -> Result<u32, OutOfMemory>
    ensures id { IfOk result (λ id. id ≡ next.old) }
    ensures next { OnOk result (next.new ≡ next.old + 1) }
{
    let id = *next;
    match id.checked_add(1) {
        Some(more) => {
            *next = more;
            Ok(id)
        }
        None => Err(OutOfMemory),
    }
}
