//! Specifications and members in annotations.

mod members;
mod refused;
mod specifications;
mod words;
