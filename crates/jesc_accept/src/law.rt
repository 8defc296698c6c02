//! What holds of the definitions. Each law is a function without a body, whose contract states it.
ghost use Rattle.std.specs.Prelude.{◌≡◌, ℕ, List, All, IsTrue};
ghost use Rattle.jesc_cert.specs.declared.cert.CertLine.{CertLine};
ghost use Rattle.jesc_logic.specs.Terms.{Term};
ghost use Rattle.jesc_logic.specs.Claims.{Claim};
ghost use Rattle.jesc_logic.specs.Structures.{Structure, is_true};
ghost use Rattle.jesc_clauses.specs.declared.clause.Clauses.{Clauses};
ghost use Rattle.jesc_clauses.specs.Clausified.{IsClausified};
ghost use Rattle.jesc_accept.specs.Moves.{State, Moves};
ghost use Rattle.jesc_accept.specs.Verdicts.{IsAccepted, Judges};
ghost use Rattle.jesc_accept.specs.declared.verdict.Accept.TheVariants.{Yes, No};

/// A line makes one state at most of another.
pub fn one_state()
    ensures { (clauses : Clauses) (s t u : State) (line : CertLine) → Moves clauses s line t → Moves clauses s line u → t ≡ u }
{}

/// A certificate has one judgement at most: it isn't accepted and wrong at a line, nor wrong at two lines first.
pub fn answers_exclude()
    ensures yes_or_no { (clauses : Clauses) (lines : List CertLine) (n : ℕ) → Judges clauses lines Yes → Judges clauses lines (No n) → ⊥ }
    ensures one_line { (clauses : Clauses) (lines : List CertLine) (m n : ℕ) → Judges clauses lines (No m) → Judges clauses lines (No n) → m ≡ n }
{}

/// Where a certificate is accepted for the clauses of formulas, no structure makes all the formulas true.
///
/// The claims are what the formulas say; the table has the terms of the clauses by number.
pub fn formulas_are_refuted()
    ensures { (table : List Term) (claims : List (Claim Term)) (clauses : Clauses) (lines : List CertLine) → IsClausified table claims clauses → IsAccepted clauses lines → (s : Structure) → All (λ f. IsTrue (is_true s f)) claims → ⊥ }
{}
