// Bytes at a place of a slice: `fields` has the numbers of one, two, four and eight bytes, `runs` what is done to bytes in a row.
#![tactic(auto)]

pub mod fields;
pub mod runs;
