// Mount and restored mount of a path with leading slash, from row 4 on: the walk or the plan, then the parts.
#![tactic(auto)]

pub mod mounting;
mod path_end;
pub mod restored_mounting;
