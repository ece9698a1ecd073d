// What the programs of tests read and reckon alike: the words of a line, and sums of bytes.
#![tactic(auto)]

pub mod hex;
pub mod numbers;
pub mod sums;
