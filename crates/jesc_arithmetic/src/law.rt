//! What holds of the definitions. Each law is a function without a body, whose contract states it.
ghost use Rattle.std.specs.Prelude.{◌≡◌, ◌≢◌, ◌↔◌, Some, List, All, AllPairs, Contains, IsTrue};
ghost use Rattle.jesc_logic.specs.Terms.{Term};
ghost use Rattle.jesc_logic.specs.Claims.{Claim};
ghost use Rattle.jesc_logic.specs.Structures.{Structure, is_true};
ghost use Rattle.jesc_arithmetic.specs.Operations.{Operation, operation_of};
ghost use Rattle.jesc_arithmetic.specs.Occurrences.{operations_in, HasOperation};
ghost use Rattle.jesc_arithmetic.specs.Arithmetic.{facts_of, arithmetic_facts};

/// The facts of formulas are true in every structure, and so are those of each operation of a term.
pub fn facts_are_true()
    ensures formulas { (s : Structure) (claims : List (Claim Term)) → All (λ f. IsTrue (is_true s f)) (arithmetic_facts claims) }
    ensures operation { (s : Structure) (t : Term) (o : Operation) → operation_of t ≡ Some o → All (λ f. IsTrue (is_true s f)) (facts_of o) }
{}

/// The operations in formulas are those of the terms that stand there, each once.
pub fn operations_stand()
    ensures those { (claims : List (Claim Term)) (o : Operation) → Contains (operations_in claims) o ↔ HasOperation claims o }
    ensures once { (claims : List (Claim Term)) → AllPairs (λ o p. o ≢ p) (operations_in claims) }
{}
