//! The rules on members: modifiers, types, names, overriding, data groups and what is thrown.
//!
//! Begin with `judge`, the walk over the classes and their members; `member` takes a member to `field_rules` or
//! `method_rules`, which stand on `heads`, types and parameters, and on `modifiers`. `known` has what members are judged by,
//! `met` what a walk keeps of those before, and `bearer` what modifiers stand on; `answer` makes the error. `throwing` tells
//! which classes may be thrown, and `literal` the values of constants.
//!
//! In `specs/`, `Members` is the walk and says which rule each part breaks, `Modifiers` has the rules on modifiers, `Types`
//! written types and the values of literals, and `Throwables` what may be thrown. `Judging` is what contracts inside the
//! crate say.
#![tactic(auto)]

mod answer;
mod bearer;
mod field_rules;
mod heads;
mod judge;
mod known;
mod literal;
mod member;
mod met;
mod method_rules;
mod modifiers;
mod throwing;

pub use judge::judge_members;
pub use literal::literal_value;
pub use throwing::throwables;
