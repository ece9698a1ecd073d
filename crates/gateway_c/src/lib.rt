// The static library for a host in Rust or C: each call of `gateway` under its own name in C, with the same clauses. galdovar.h of
// `gateway` declares them.
#![tactic(auto)]

pub mod instance;
pub mod mounts;
pub mod plain;
pub mod state;
pub mod tree;
