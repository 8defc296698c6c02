//! Laws over the definitions. Each is a call that does nothing, whose contract states it.

ghost use Rattle.jesc_vc.specs.Conditions.{AreComplete, AreListed, AreSound};

/// A core has one condition for each check on each path, depth first.
pub fn conditions_are_listed()
    ensures { AreListed }
{}

/// A structure that makes a condition true has a run of the core that fails the condition's check, behind its turns.
pub fn conditions_are_sound()
    ensures { AreSound }
{}

/// Where a structure has a run of the core that fails a check, a structure that agrees with it on all symbols that are not
/// auxiliary makes a condition of that check true, as long as no condition has too many auxiliary symbols.
pub fn conditions_are_complete()
    ensures { AreComplete }
{}
