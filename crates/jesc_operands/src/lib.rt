//! Operands: what fits where, which types operands may have, and the type of what is made of them.
//!
//! A newcomer starts with `specs/Operands`, one relation for each sentence of the definitions; what fits where is `Fits` of
//! `jesc_tree`. `specs/Deciding` decides the same by functions over plain values, for the definitions of the crates above.
//! `law` says that functions and relations agree in every lawful program, and `specs/laws` proves it.
//!
//! The calls answer exactly what the functions do: `subtypes` has what fits and what may be thrown, and `operands` the rest.
//! `kinds` tells numbers from truth values and references.
#![tactic(auto)]

mod kinds;
mod law;
mod operands;
mod subtypes;

pub use kinds::{Kind, has_values, is_number, is_reference, is_truth, kind_of};
pub use law::{
    cast_is_decided, chooses_is_decided, equable_is_decided, fits_is_decided, makes_is_decided,
    related_is_decided, throwable_is_decided, turns_is_decided,
};
pub use operands::{are_equable, are_related, binary_type, choice_type, may_cast, unary_type};
pub use subtypes::{fits, is_throwable};
