//! Constructors that no file has.

ghost use Rattle.std.specs.Prelude.{ℕ, ◌≡◌, ◌∷◌, [], List as Items, IfOk};
ghost use Rattle.jesc_classes.specs.Resolved.{IsId};
ghost use Rattle.jesc_names.specs.Program.{IsHarmless, IsUnwritten, literal_true};
ghost use Rattle.jesc_tree.specs.Trees.{view};
ghost use Rattle.jesc_tree.specs.declared.spec.TSpec.{TSpec};
ghost use Rattle.jesc_tree.specs.declared.spec.TOnly.{TOnly};

use jesc_text::{Boxed, List, OutOfMemory, Place, Text};
use jesc_tree::{Case, ClassId, Method, TExpr, TFrame, TNode, TOnly, TSpec, Ty};
use std::alloc::Global;

/// A constructor without parameters, of this name, place and class.
pub fn unwritten(
    alloc: Global,
    name: &[u8],
    place: Place,
    owner: ClassId,
) -> Result<Method, OutOfMemory>
    ensures { IfOk result (λ x. (class : ℕ) (order : Items ℕ) → IsId order class owner.0 → IsUnwritten name.now place class order x) }
{
    let mut text = Text::new(alloc);
    text.append(name)?;
    let mut cases = List::new(alloc);
    cases.push(harmless(alloc, place)?)?;
    Ok(Method {
        name: text,
        place,
        owner,
        params: List::new(alloc),
        result: Ty::Void,
        result_nullable: false,
        is_static: false,
        is_private: false,
        is_abstract: false,
        is_constructor: true,
        is_pure: false,
        is_helper: false,
        throws: List::new(alloc),
        cases,
        body: None,
    })
}

/// `requires true; ensures true; assignable \nothing; signals_only \nothing;`.
fn harmless(alloc: Global, place: Place) -> Result<Case, OutOfMemory>
    ensures { IfOk result (IsHarmless place) }
{
    let promises = promises(alloc, place)?;
    let signals_only = no_signals(alloc, place)?;
    let demands = literal_true(alloc, place)?;
    Ok(Case {
        place,
        demands,
        promises,
        signals: List::new(alloc),
        signals_only,
        frame: TFrame {
            by: place,
            all: false,
            stores: List::new(alloc),
        },
    })
}

/// `ensures true`.
fn promises(alloc: Global, place: Place) -> Result<List<TSpec>, OutOfMemory>
    ensures { IfOk result (λ xs. (s : TSpec) × (xs ≡ s ∷ []) × (s.by ≡ place) × (view s.e ≡ literal_true place)) }
{
    let e = literal_true(alloc, place)?;
    let mut promises = List::new(alloc);
    promises.push(TSpec { by: place, e })?;
    Ok(promises)
}

/// `signals_only \nothing`.
fn no_signals(alloc: Global, place: Place) -> Result<List<TOnly>, OutOfMemory>
    ensures { IfOk result (λ xs. (o : TOnly) × (xs ≡ o ∷ []) × (o.by ≡ place) × (o.classes ≡ [])) }
{
    let mut signals = List::new(alloc);
    signals.push(TOnly {
        by: place,
        classes: List::new(alloc),
    })?;
    Ok(signals)
}

/// The literal `true`.
fn literal_true(alloc: Global, place: Place) -> Result<TExpr, OutOfMemory>
    ensures { IfOk result (λ e. view e ≡ literal_true place) }
{
    let node = Boxed::new(alloc, TNode::Truth(true))?;
    Ok(TExpr {
        start: place,
        at: place,
        dot: place,
        ty: Ty::Bool,
        node,
    })
}
