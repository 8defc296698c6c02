//! Laws on cores. Each is a call that does nothing, whose contract states it.

ghost use Rattle.std.specs.Prelude.{◌≡◌, ◌≢◌, ◌↔◌, ◌≤ℤ◌, ℤ, true, List};
ghost use Rattle.std.specs.List.{AllPairs, Contains};
ghost use Rattle.jesc_core.specs.Trees.{CoreTree, Failure};
ghost use Rattle.jesc_core.specs.Heaps.{Reading};
ghost use Rattle.jesc_core.specs.Values.{Span, at_each, at_some};
ghost use Rattle.jesc_core.specs.Runs.{Turn, Fails};
ghost use Rattle.jesc_core.specs.Walks.{IsPath, paths_of, checks_of};
ghost use Rattle.jesc_core.specs.laws.Ranges.{SomeIn};

/// What is said of each number of a range is said of all whole numbers from the first to the last.
#[tactic(auto, using(crate::specs::laws::Ranges::each_says))]
pub fn range_speaks_of_all()
    ensures { (s : Span) → (at_each s ≡ true) ↔ ((v : ℤ) → s.low ≤ℤ v → v ≤ℤ s.high → s.body v ≡ true) }
{}

/// What is said of some number of a range is said of one from the first to the last.
#[tactic(auto, using(crate::specs::laws::Ranges::some_is))]
pub fn range_speaks_of_some()
    ensures { (s : Span) → (at_some s ≡ true) ↔ SomeIn s }
{}

/// Along given turns a run fails one check at most.
#[tactic(auto, using(crate::specs::laws::Running::same_failure))]
pub fn one_check_fails()
    ensures { (reading : Reading) (core : CoreTree) (turns : List Turn) (f g : Failure) → Fails reading core turns f → Fails reading core turns g → f ≡ g }
{}

/// A check that fails is among those that control leads to, behind the same turns.
#[tactic(auto, using(crate::specs::laws::Walking::finds))]
pub fn failing_check_is_reached()
    ensures { (reading : Reading) (core : CoreTree) (turns : List Turn) (failure : Failure) → Fails reading core turns failure → Contains (checks_of core) (turns, failure) }
{}

/// The paths that `paths` counts are those of the walks through a core.
#[tactic(auto, using(crate::specs::laws::Walking::lists_paths))]
pub fn paths_are_listed()
    ensures { (core : CoreTree) (turns : List Turn) → IsPath core turns ↔ Contains (paths_of core) turns }
{}

/// No path is counted twice.
#[tactic(auto, using(crate::specs::laws::Walking::apart_paths))]
pub fn paths_are_apart()
    ensures { (core : CoreTree) → AllPairs (λ s t. s ≢ t) (paths_of core) }
{}
