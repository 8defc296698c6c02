//! Expressions in code and in annotations.

mod accepted;
mod beside_code;
mod deep;
mod endings;
mod from_a_token;
mod left_out;
mod refused;
