//! The functions that decide say what the relations say. Each law is a call that does nothing, whose contract states it.

ghost use Rattle.std.specs.Prelude.{◌≡◌, ◌↔◌, true, Some, List};
ghost use Rattle.std.specs.List.{All};
ghost use Rattle.jesc_tree.specs.declared.class.Class.{Class};
ghost use Rattle.jesc_tree.specs.declared.class.Field.{Field};
ghost use Rattle.jesc_tree.specs.declared.class.Method.{Method};
ghost use Rattle.jesc_tree.specs.declared.ops.UnOp.{UnOp};
ghost use Rattle.jesc_tree.specs.declared.ty.Ty.{Ty};
ghost use Rattle.jesc_tree.specs.declared.ty.Ty.TheVariants.{Ref};
ghost use Rattle.jesc_tree.specs.Ids.{ty_ids};
ghost use Rattle.jesc_tree.specs.Programs.{IsInRange, IsLawful};
ghost use Rattle.jesc_tree.specs.Subtypes.{Fits, Subtype, class_id};
ghost use Rattle.jesc_operands.specs.declared.kinds.Kind.{Kind};
ghost use Rattle.jesc_operands.specs.Deciding as deciding;
ghost use Rattle.jesc_operands.specs.Operands.{AreEquable, AreRelated, Casts, Chooses, Makes, Turns};

/// What fits, in a lawful program.
pub fn fits_is_decided()
    ensures { (classes : List Class) (fields : List Field) (methods : List Method) (s t : Ty) → IsLawful classes fields methods → All (IsInRange classes fields methods) (ty_ids s) → (deciding.fits classes s t ≡ true) ↔ Fits classes s t }
{}

/// What is a subtype of `Throwable`, in a lawful program.
pub fn throwable_is_decided()
    ensures { (classes : List Class) (fields : List Field) (methods : List Method) (t : Ty) → IsLawful classes fields methods → All (IsInRange classes fields methods) (ty_ids t) → (deciding.is_throwable classes t ≡ true) ↔ Subtype classes t (Ref (class_id 1)) }
{}

/// Which references are related, in a lawful program.
pub fn related_is_decided()
    ensures { (classes : List Class) (fields : List Field) (methods : List Method) (s t : Ty) → IsLawful classes fields methods → All (IsInRange classes fields methods) (ty_ids s) → All (IsInRange classes fields methods) (ty_ids t) → (deciding.are_related classes s t ≡ true) ↔ AreRelated classes s t }
{}

/// What may be compared by `==`, in a lawful program.
pub fn equable_is_decided()
    ensures { (classes : List Class) (fields : List Field) (methods : List Method) (s t : Ty) → IsLawful classes fields methods → All (IsInRange classes fields methods) (ty_ids s) → All (IsInRange classes fields methods) (ty_ids t) → (deciding.are_equable classes s t ≡ true) ↔ AreEquable classes s t }
{}

/// What may be cast, in a lawful program.
pub fn cast_is_decided()
    ensures { (classes : List Class) (fields : List Field) (methods : List Method) (s t : Ty) → IsLawful classes fields methods → All (IsInRange classes fields methods) (ty_ids s) → All (IsInRange classes fields methods) (ty_ids t) → (deciding.may_cast classes s t ≡ true) ↔ Casts classes s t }
{}

/// What an operator makes of two operands, in a lawful program.
pub fn makes_is_decided()
    ensures { (classes : List Class) (fields : List Field) (methods : List Method) (kind : Kind) (s t r : Ty) → IsLawful classes fields methods → All (IsInRange classes fields methods) (ty_ids s) → All (IsInRange classes fields methods) (ty_ids t) → (deciding.makes classes kind s t ≡ Some r) ↔ Makes classes kind s t r }
{}

/// What a prefix operator makes of its operand.
pub fn turns_is_decided()
    ensures { (op : UnOp) (t r : Ty) → (deciding.turns op t ≡ Some r) ↔ Turns op t r }
{}

/// What one of two values is, by a condition, in a lawful program.
pub fn chooses_is_decided()
    ensures { (classes : List Class) (fields : List Field) (methods : List Method) (s t r : Ty) → IsLawful classes fields methods → All (IsInRange classes fields methods) (ty_ids s) → All (IsInRange classes fields methods) (ty_ids t) → (deciding.chooses classes s t ≡ Some r) ↔ Chooses classes s t r }
{}
