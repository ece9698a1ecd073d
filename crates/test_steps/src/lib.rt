// What a line of a script does to the lent bytes and to the open loops, for the program of tests that runs it.
#![tactic(auto)]

pub mod generator;
pub mod lent;
pub mod loops;
