//! Keys of fields: a field is known by the number of the first field of its name.

ghost use Rattle.std.specs.Prelude.{◌≡◌, ◌<◌, ◌^◌, ◌++◌, ◌∷◌, [], List as Items, ℕ, bytes_eq, length, map, IfOk, OnOk};
ghost use Rattle.std.specs.List.{All};
ghost use Rattle.jesc_members.specs.Keys.{AreRows, HasKeys, HasNames, TakesName};

use crate::fields::GivenField;
use jesc_classes::Table;
use jesc_text::{List, OutOfMemory};
use std::alloc::Global;

/// The key of each field, and of each name the key.
#[derive(Drop)]
pub struct FieldKeys<'a> {
    pub names: Table<'a, u32>,
    pub keys: List<u32>,
}

/// The keys of these fields. Answers `OutOfMemory` where there is no room for the tables.
pub fn field_keys<'a>(
    alloc: Global,
    fields: &[GivenField<'a>],
) -> Result<FieldKeys<'a>, OutOfMemory>
    requires { length fields.now < 2 ^ 32 }
    ensures names { IfOk result (λ k. HasNames k.names (map (λ f. f.tree.now.name.text) fields.now)) }
    ensures keys { IfOk result (λ k. HasKeys (Items ℕ) bytes_eq (map (λ f. f.tree.now.name.text) fields.now) k.keys) }
{
    let mut names = Table::new(alloc);
    let mut keys = List::new(alloc);
    for (i, field) in fields.iter().enumerate() {
        let key = take_up(&mut names, field.tree.name.text.as_slice(), i as u32)?;
        keys.push(key)?;
    }
    Ok(FieldKeys { names, keys })
}

/// Takes up the next item's name, where no item before has it, and answers the key.
pub fn take_up<'a>(
    names: &mut Table<'a, u32>,
    name: &'a [u8],
    number: u32,
) -> Result<u32, OutOfMemory>
    ensures { IfOk result (λ key. TakesName names.old name.now number names.new key) }
{
    match names.get(name) {
        Some(key) => Ok(key),
        None => {
            names.add(name, number)?;
            Ok(number)
        }
    }
}

/// Of each field the number of its class.
pub fn field_owners(alloc: Global, fields: &[GivenField<'_>]) -> Result<List<u32>, OutOfMemory>
    ensures { IfOk result (λ owners. owners ≡ map (λ f. f.number) fields.now) }
{
    let mut owners = List::new(alloc);
    for field in fields {
        owners.push(field.number)?;
    }
    Ok(owners)
}

/// Of each class the numbers of its items, which have these classes.
pub fn rows_of(alloc: Global, classes: usize, owners: &[u32]) -> Result<Vec<List<u32>>, OutOfMemory>
    requires few { length owners.now < 2 ^ 32 }
    requires within { All (λ class. class < classes) owners.now }
    ensures { IfOk result (λ rows. AreRows classes owners.now rows.items) }
{
    let mut rows = empty_rows(alloc, classes)?;
    for (i, owner) in owners.iter().enumerate() {
        rows[*owner as usize].push(i as u32)?;
    }
    Ok(rows)
}

/// So many empty rows.
pub fn empty_rows(alloc: Global, count: usize) -> Result<Vec<List<u32>>, OutOfMemory>
    ensures { IfOk result (λ rows. AreRows count [] rows.items) }
{
    let mut rows = Vec::new(alloc);
    for _row in 0..count {
        push(&mut rows, List::new(alloc))?;
    }
    Ok(rows)
}

/// Appends an item.
fn push<T: Drop>(items: &mut Vec<T>, item: T) -> Result<(), OutOfMemory>
    ensures { OnOk result (items.new.items ≡ items.old.items ++ item ∷ []) }
{
    match items.push(item) {
        Ok(_) => Ok(()),
        Err(_) => Err(OutOfMemory),
    }
}
