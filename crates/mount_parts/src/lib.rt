// The parts of a mount and of a restored mount that need no path: the search, the rows behind it, and the placing.
#![tactic(auto)]

pub mod backend;
mod inner;
pub mod mounting;
pub mod restored_mounting;
