// The options of an instance: what creation takes, the header holds, a query tells, and a saved state keeps.
#![tactic(auto)]

// The options: the words of option bits, their own mapping, and the flags (R27).
#[derive(Clone, Copy, Debug, PartialEq, Eq)]
pub struct VfsOptions {
    pub in_opts: u64,
    pub out_opts: u64,
    pub id_mapping: id_map::IdMapping,
    pub flags: u8,
}
