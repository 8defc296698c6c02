//! Which type fits where another is wanted.

ghost use Rattle.std.specs.Prelude.{◌≡◌, ◌<◌, ◌↔◌, ◌⊎◌, ℕ, true, length, map, IfOk, OnOk};
ghost use Rattle.std.specs.List.{All, Contains};
ghost use Rattle.jesc_tree.specs.Ids.{ty_ids};
ghost use Rattle.jesc_tree.specs.Programs.{IsInRange, IsLawful, IsProgram};
ghost use Rattle.jesc_tree.specs.laws.Forms.{ArrayFit, Below, class_of, element_class, element_of, takes_null};
ghost use Rattle.jesc_tree.specs.Subtypes.{Fits, Reaches, parent_list, supertypes};

use crate::class::Class;
use crate::ids::ClassId;
use crate::program::Program;
use crate::ty::{Elem, Ty};
use jesc_text::OutOfMemory;
use std::alloc::Global;
use std::collections::BTreeSet;

impl Program {
    /// Whether a value of the first type may stand where the second is wanted (JLS 5.2, 5.3).
    ///
    /// Answers `OutOfMemory` where there is no room for the walk over supertypes.
    pub fn fits(&self, alloc: Global, from: Ty, to: Ty) -> Result<bool, OutOfMemory>
        requires lawful { IsLawful self.now.classes self.now.fields self.now.methods }
        requires within { All (IsInRange self.now.classes self.now.fields self.now.methods) (ty_ids from) }
        ensures { IfOk result (λ yes. (yes ≡ true) ↔ Fits self.now.classes from to) }
    {
        match from {
            Ty::Ref(low) => match class_of(to) {
                Some(high) => self.is_below(alloc, low.0, high),
                None => Ok(false),
            },
            Ty::Array(elem) => self.array_fits(alloc, elem, to),
            Ty::Null => Ok(takes_null(to)),
            Ty::Int => Ok(is_same(from, to) || is_same(Ty::Long, to)),
            Ty::Long => Ok(is_same(from, to)),
            Ty::Bool => Ok(is_same(from, to)),
            Ty::Void => Ok(is_same(from, to)),
        }
    }

    /// Whether an array with such elements may stand where that type is wanted.
    fn array_fits(&self, alloc: Global, elem: Elem, to: Ty) -> Result<bool, OutOfMemory>
        requires program { IsProgram self.now.classes self.now.fields self.now.methods }
        requires within { All (IsInRange self.now.classes self.now.fields self.now.methods) (ty_ids (Ty.Array elem)) }
        ensures { IfOk result (λ yes. (yes ≡ true) ↔ ArrayFit self.now.classes elem to) }
    {
        if let Some(high) = class_of(to) {
            return Ok(high == 0);
        }
        let Some(other) = element_of(to) else {
            return Ok(false);
        };
        let Some(low) = element_class(elem) else {
            return Ok(elem == other);
        };
        match element_class(other) {
            Some(high) => self.is_below(alloc, low, high),
            None => Ok(false),
        }
    }

    /// Whether the one class is a subtype of the other: every class is one of `Object`.
    fn is_below(&self, alloc: Global, low: u32, high: u32) -> Result<bool, OutOfMemory>
        requires program { IsProgram self.now.classes self.now.fields self.now.methods }
        requires within { low < length self.now.classes }
        ensures { IfOk result (λ yes. (yes ≡ true) ↔ Below self.now.classes low high) }
    {
        if high == 0 {
            return Ok(true);
        }
        self.reaches(alloc, low, high)
    }

    /// Whether headings lead from the one class to the other.
    ///
    /// A supertype has a smaller id, so the walk takes the greatest id that it has met and not left: no class is met
    /// again after it has been left.
    fn reaches(&self, alloc: Global, low: u32, high: u32) -> Result<bool, OutOfMemory>
        requires program { IsProgram self.now.classes self.now.fields self.now.methods }
        requires within { low < length self.now.classes }
        ensures { IfOk result (λ yes. (yes ≡ true) ↔ Reaches self.now.classes low high) }
    {
        let mut met = BTreeSet::new(alloc);
        add(&mut met, low)?;
        while let Some(id) = met.pop_last() {
            if id <= high {
                return Ok(id == high);
            }
            add_supertypes(&mut met, &self.classes()[id as usize])?;
        }
        Ok(false)
    }
}

/// The class or interface that a type is.
fn class_of(ty: Ty) -> Option<u32>
    ensures { result ≡ class_of ty }
{
    match ty {
        Ty::Ref(class) => Some(class.0),
        Ty::Void => None,
        Ty::Null => None,
        Ty::Int => None,
        Ty::Long => None,
        Ty::Bool => None,
        Ty::Array(_) => None,
    }
}

/// The type of an array's elements.
fn element_of(ty: Ty) -> Option<Elem>
    ensures { result ≡ element_of ty }
{
    match ty {
        Ty::Array(elem) => Some(elem),
        Ty::Void => None,
        Ty::Null => None,
        Ty::Int => None,
        Ty::Long => None,
        Ty::Bool => None,
        Ty::Ref(_) => None,
    }
}

/// The class or interface that the elements of an array are of.
fn element_class(elem: Elem) -> Option<u32>
    ensures { result ≡ element_class elem }
{
    match elem {
        Elem::Ref(class) => Some(class.0),
        Elem::Int => None,
        Elem::Long => None,
        Elem::Bool => None,
    }
}

/// Whether the types are equal.
fn is_same(from: Ty, to: Ty) -> bool
    ensures { (result ≡ true) ↔ (from ≡ to) }
{
    from == to
}

/// Whether `null` may stand where that type is wanted.
fn takes_null(ty: Ty) -> bool
    ensures { result ≡ takes_null ty }
{
    match ty {
        Ty::Null => true,
        Ty::Ref(_) => true,
        Ty::Array(_) => true,
        Ty::Void => false,
        Ty::Int => false,
        Ty::Long => false,
        Ty::Bool => false,
    }
}

/// Adds a class.
fn add(met: &mut BTreeSet<u32>, id: u32) -> Result<(), OutOfMemory>
    ensures { OnOk result ((q : ℕ) → Contains met.new.keys q ↔ (Contains met.old.keys q ⊎ (q ≡ id))) }
{
    match met.insert(id) {
        Ok(_) => Ok(()),
        Err(_) => Err(OutOfMemory),
    }
}

/// Adds these interfaces.
fn add_all(met: &mut BTreeSet<u32>, interfaces: &[ClassId]) -> Result<(), OutOfMemory>
    ensures { OnOk result ((q : ℕ) → Contains met.new.keys q ↔ (Contains met.old.keys q ⊎ Contains (map (λ i. i.0) interfaces.now) q)) }
{
    for interface in interfaces {
        add(met, interface.0)?;
    }
    Ok(())
}

/// Adds the superclass, where there is one.
fn add_parent(met: &mut BTreeSet<u32>, parent: &Option<ClassId>) -> Result<(), OutOfMemory>
    ensures { OnOk result ((q : ℕ) → Contains met.new.keys q ↔ (Contains met.old.keys q ⊎ Contains (parent_list parent.now) q)) }
{
    match parent {
        Some(class) => add(met, class.0),
        None => Ok(()),
    }
}

/// Adds the classes that a heading names.
fn add_supertypes(met: &mut BTreeSet<u32>, class: &Class) -> Result<(), OutOfMemory>
    ensures { OnOk result ((q : ℕ) → Contains met.new.keys q ↔ (Contains met.old.keys q ⊎ Contains (supertypes class.now) q)) }
{
    add_parent(met, &class.parent)?;
    add_all(met, class.interfaces.as_slice())
}
