//! A law over the definitions, on a call that does nothing.

ghost use Rattle.jesc_meanings.specs.Order.{FoundInOrder};

/// What is found in a class, where supertypes have smaller ids, is found in the order of lookup.
pub fn found_is_in_order()
    ensures { FoundInOrder }
{}
