//! Laws over the definitions, each on a call that does nothing.

ghost use Rattle.jesc_classes.specs.Order.{WholeWhereAcyclic};

/// Every class gets an id exactly where no class is its own supertype.
pub fn order_is_whole()
    ensures { WholeWhereAcyclic }
{}
