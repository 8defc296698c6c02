//! The order of the ids of fields.

ghost use Rattle.std.specs.Prelude.{ℕ, ◌≡◌, ◌<◌, ◌≤◌, ◌^◌, ◌++◌, ◌∷◌, [], get_or, length, map, IfOk, OnOk};
ghost use Rattle.std.specs.List.{All};
ghost use Rattle.jesc_names.specs.Program.{joined, numbers_in};
ghost use Rattle.jesc_members.specs.Seen.{seen_field};

use jesc_members::GivenField;
use jesc_text::{List, OutOfMemory};
use std::alloc::Global;

/// Of each class by number, the numbers of its fields. There are so many classes.
pub fn fields_by_class(
    alloc: Global,
    count: usize,
    fields: &[GivenField<'_>],
) -> Result<Vec<List<u32>>, OutOfMemory>
    requires few { length fields.now < 2 ^ 32 }
    requires within { All (λ f. f.class < count) (map seen_field fields.now) }
    ensures count { IfOk result (λ lists. length lists.items ≡ count) }
    ensures each { IfOk result (λ lists. (class : ℕ) → class < count → get_or lists.items class [] ≡ numbers_in class 0 (map seen_field fields.now)) }
{
    let mut lists = no_fields(alloc, count)?;
    for (i, field) in fields.iter().enumerate() {
        lists[field.number as usize].push(i as u32)?;
    }
    Ok(lists)
}

/// So many empty lists.
fn no_fields(alloc: Global, count: usize) -> Result<Vec<List<u32>>, OutOfMemory>
    ensures count { IfOk result (λ lists. length lists.items ≡ count) }
    ensures empty { IfOk result (λ lists. (class : ℕ) → get_or lists.items class [] ≡ []) }
{
    let mut lists = Vec::new(alloc);
    for _ in 0..count {
        push(&mut lists, List::new(alloc))?;
    }
    Ok(lists)
}

/// Appends a list.
fn push(lists: &mut Vec<List<u32>>, list: List<u32>) -> Result<(), OutOfMemory>
    ensures { OnOk result (lists.new.items ≡ lists.old.items ++ list ∷ []) }
{
    match lists.push(list) {
        Ok(_) => Ok(()),
        Err(_) => Err(OutOfMemory),
    }
}

/// The numbers of all fields in the order of their ids, and how many each class has, in the order of the classes' ids.
#[derive(Drop)]
pub struct FieldOrder {
    pub numbers: List<u32>,
    pub counts: List<usize>,
}

/// The order by the lists of each class's fields, and the classes in the order of their ids.
pub fn field_order(
    alloc: Global,
    lists: &[List<u32>],
    classes: &[u32],
) -> Result<FieldOrder, OutOfMemory>
    requires { (i : ℕ) → i < length classes.now → get_or classes.now i 0 < length lists.now }
    ensures numbers { IfOk result (λ o. o.numbers ≡ joined (map (λ class. get_or lists.now class []) classes.now)) }
    ensures counts { IfOk result (λ o. o.counts ≡ map (λ class. length (get_or lists.now class [])) classes.now) }
{
    let mut numbers = List::new(alloc);
    let mut counts = List::new(alloc);
    for class in classes {
        let own = lists[*class as usize].as_slice();
        append(&mut numbers, own)?;
        counts.push(own.len())?;
    }
    Ok(FieldOrder { numbers, counts })
}

fn append(numbers: &mut List<u32>, more: &[u32]) -> Result<(), OutOfMemory>
    ensures { OnOk result (numbers.new ≡ numbers.old ++ more.now) }
{
    for number in more {
        numbers.push(*number)?;
    }
    Ok(())
}
