// The tables of an instance in the bytes that a host lends (docs/LAYOUT.md), read and written where the layout rule holds. Nothing here is for a host: each function
// has as its condition a place within the slice, the layout rule, a row below the count, or what its caller has just found or tested.
#![tactic(auto)]

pub mod header;
pub mod mounts;
pub mod places;
pub mod rows;
pub mod slots;
