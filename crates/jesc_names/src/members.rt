//! The members of model fields, by ids.

ghost use Rattle.std.specs.Prelude.{ℕ, ◌≡◌, ◌<◌, ◌↔◌, ◌⊎◌, get_or, length, map, IfOk, OnOk};
ghost use Rattle.std.specs.List.{All, Contains};
ghost use Rattle.jesc_classes.specs.Entries.{AreApart, AreIds, id_in};
ghost use Rattle.jesc_members.specs.Fields.{fields_of};
ghost use Rattle.jesc_names.specs.TablesRows.{AreMembersOf, HasRising};

use jesc_members::Groups;
use jesc_text::{List, OutOfMemory};
use jesc_tree::FieldId;
use std::alloc::Global;
use std::collections::BTreeSet;

/// The numbers of all fields in the order of their ids, and of each field by number its id.
#[derive(Drop, Clone, Copy)]
pub struct FieldIds<'a> {
    pub order: &'a [u32],
    pub ids: &'a [u32],
}

/// The ids of all members of the field of that number, rising.
///
/// Answers `OutOfMemory` where there is no room for the list.
pub fn members_of(
    alloc: Global,
    groups: &Groups<'_>,
    ids: FieldIds<'_>,
    number: u32,
) -> Result<List<FieldId>, OutOfMemory>
    requires count { length ids.ids.now ≡ length (fields_of groups.now) }
    requires apart { AreApart ids.order.now }
    requires each { AreIds ids.order.now ids.ids.now }
    requires number { number < length (fields_of groups.now) }
    ensures { IfOk result (AreMembersOf groups.now ids.entry.order.now number) }
{
    let members = groups.members(alloc, number)?;
    let mut set = id_set(alloc, ids.ids, members.as_slice())?;
    rising(alloc, &mut set)
}

/// The ids of these fields.
fn id_set(alloc: Global, ids: &[u32], numbers: &[u32]) -> Result<BTreeSet<u32>, OutOfMemory>
    requires { (i : ℕ) → i < length numbers.now → get_or numbers.now i 0 < length ids.now }
    ensures { IfOk result (λ set. (q : ℕ) → Contains set.keys q ↔ Contains (map (id_in ids.now) numbers.now) q) }
{
    let mut set = BTreeSet::new(alloc);
    for number in numbers {
        add(&mut set, ids[*number as usize])?;
    }
    Ok(set)
}

/// Adds an id.
fn add(set: &mut BTreeSet<u32>, id: u32) -> Result<(), OutOfMemory>
    ensures { OnOk result ((q : ℕ) → Contains set.new.keys q ↔ (Contains set.old.keys q ⊎ (q ≡ id))) }
{
    match set.insert(id) {
        Ok(_) => Ok(()),
        Err(_) => Err(OutOfMemory),
    }
}

/// The ids of a set, rising, taken out of it.
fn rising(alloc: Global, set: &mut BTreeSet<u32>) -> Result<List<FieldId>, OutOfMemory>
    ensures { IfOk result (HasRising set.old.keys) }
{
    let mut rising = List::new(alloc);
    while let Some(id) = set.pop_first() {
        rising.push(FieldId(id))?;
    }
    Ok(rising)
}
