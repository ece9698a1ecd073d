// Paths as bytes: components, limits, and the check of one name.
#![tactic(auto)]

pub mod components;
mod eight;
pub mod limits;
pub mod names;
