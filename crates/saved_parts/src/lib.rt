// The parts of saved bytes: each is read and written in one place. What is read stands for any bytes, whether or not they are accepted.
#![tactic(auto)]

pub mod options;
pub mod places;
pub mod records;
pub mod trailer;
