// The saved state of an instance in lent bytes: save and restore.
#![tactic(auto)]

pub mod saving;
pub mod state_restoring;
