//! What is known of like methods together.

ghost use Rattle.std.specs.Prelude.{◌≡◌, ◌↔◌, ◌⊎◌, ◌<◌, ◌∷◌, ◌++◌, [], ℕ, true, false, List as Items, length, map, IfSome};
ghost use Rattle.jesc_members.specs.Methods as spec;
ghost use Rattle.jesc_members.specs.Seen.{seen_method};
ghost use Rattle.jesc_members.specs.Summaries.{IsSummary, IsSummaryOf};

use crate::methods::{GivenMethod, is_final, is_private, is_static};
use crate::signatures::is_same_signature;
use jesc_ast::MethodTree;

/// What is known of one or more methods of one name and number of parameters, which classes of one line declare.
#[derive(Drop, Clone, Copy)]
pub struct Summary {
    /// The number of one of them.
    pub sample: u32,
    /// Whether two different types declare them.
    pub many: bool,
    /// Whether two of them have different signatures.
    pub mixed: bool,
    /// Whether one is private or static.
    pub hides: bool,
    /// Whether one is final.
    pub sealed: bool,
}

/// The summary of these methods and one more. Takes no memory.
pub fn summed(methods: &[GivenMethod<'_>], old: Option<Summary>, method: u32) -> Summary
    requires method { method < length methods.now }
    requires sample { IfSome old (λ s. s.sample < length methods.now) }
    ensures { (of : Items ℕ) → IsSummaryOf (map seen_method methods.now) of old → IsSummary (map seen_method methods.now) (of ++ method ∷ []) result }
{
    let new = &methods[method as usize];
    match old {
        Some(old) => joined(old, &methods[old.sample as usize], new),
        None => alone(method, new),
    }
}

/// The summary of the one method of that number.
fn alone(number: u32, method: &GivenMethod<'_>) -> Summary
    ensures sample { result.sample ≡ number }
    ensures many { result.many ≡ false }
    ensures mixed { result.mixed ≡ false }
    ensures hides { result.hides ≡ spec.is_hidden method.now.tree.now }
    ensures sealed { result.sealed ≡ spec.is_final method.now.tree.now }
{
    Summary {
        sample: number,
        many: false,
        mixed: false,
        hides: is_hidden(method.tree),
        sealed: is_final(method.tree),
    }
}

/// The summary with one more method, by what the sample is.
fn joined(old: Summary, sample: &GivenMethod<'_>, method: &GivenMethod<'_>) -> Summary
    ensures sample { result.sample ≡ old.sample }
    ensures many { (result.many ≡ true) ↔ ((old.many ≡ true) ⊎ (sample.now.number ≡ method.now.number → ⊥)) }
    ensures mixed { (result.mixed ≡ true) ↔ ((old.mixed ≡ true) ⊎ (spec.signature sample.now.tree.now ≡ spec.signature method.now.tree.now → ⊥)) }
    ensures hides { (result.hides ≡ true) ↔ ((old.hides ≡ true) ⊎ (spec.is_hidden method.now.tree.now ≡ true)) }
    ensures sealed { (result.sealed ≡ true) ↔ ((old.sealed ≡ true) ⊎ (spec.is_final method.now.tree.now ≡ true)) }
{
    Summary {
        sample: old.sample,
        many: is_either(old.many, sample.number != method.number),
        mixed: is_either(old.mixed, !is_same_signature(sample.tree, method.tree)),
        hides: is_either(old.hides, is_hidden(method.tree)),
        sealed: is_either(old.sealed, is_final(method.tree)),
    }
}

fn is_either(a: bool, b: bool) -> bool
    ensures { (result ≡ true) ↔ ((a ≡ true) ⊎ (b ≡ true)) }
{
    a || b
}

/// Whether the method is private or static.
fn is_hidden(method: &MethodTree) -> bool
    ensures { result ≡ spec.is_hidden method.now }
{
    is_private(method) || is_static(method)
}
