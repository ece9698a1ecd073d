// The search for a row by one cell of eight bytes, eight rows at a time. Nothing here is for a host: each search has places within the slice as its condition.
#![tactic(auto)]

pub mod bytes;
pub mod cells;
pub mod names;
