// The calls for a host in Rust or C: functions on numbers and byte slices, answers as structs of plain numbers. galdovar.h declares them.
// Each that takes storage answers SMALL before all else where it is too short or against the layout rule (R19).
#![tactic(auto)]

pub mod instance;
pub mod mounts;
pub mod plain;
pub mod state;
pub mod tree;
