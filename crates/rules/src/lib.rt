// The numbers of the trade, for the code of the crates above; the rules themselves stand in specs/.
#![tactic(auto)]

pub mod codes;

// The largest node number and the largest backend number (R5).
pub const VFS_MAX_INO: u64 = 72057594037927935;

// How many numbers there are, 0 among them: cells are read modulo this (R5).
pub const NUMBERS: u64 = VFS_MAX_INO + 1;

// The index of the tree itself (R11).
pub const VFS_PSEUDO_FS_IDX: u8 = 0;

// How many indexes there are, 0 among them (R31).
pub const MAX_VFS_INDEX: usize = 256;

// The counter of a new instance (R31).
pub const FIRST_COUNTER: u8 = VFS_PSEUDO_FS_IDX + 1;

// The root's number (R12).
pub const ROOT_ID: u64 = 1;

// The number of the first new node (R12).
pub const PSEUDOFS_NEXT_INODE: u64 = 2;

// The largest N (R9).
pub const MAX_NODES: usize = 1024;

// The bytes of the longest name (R10).
pub const MAX_NAME: usize = 255;

// The bytes of the longest mount path (R10).
pub const MAX_PATH: usize = 4096;

// The bytes of the longest line of a session (R150).
pub const MAX_LINE: usize = 8192;

// The flags of the options are below this (R29, R122).
pub const FLAGS: u8 = 64;

// The mode of a pseudo entry (R13).
pub const DIR_MODE: u32 = 16895;

// The block size of a pseudo entry (R13).
pub const BLOCK_SIZE: u32 = 4096;
