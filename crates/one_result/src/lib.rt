// No code: each call that takes storage has one result, proved of its contract (R164).
#![tactic(auto)]
