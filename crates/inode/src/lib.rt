// Full inode numbers, and the numbers of nodes and of backends, each a type of its own: neither stands for a full number without the conversion (R8).
#![tactic(auto)]

ghost use Rattle.std.specs.Prelude.{◌≡◌, eqb};
ghost use Rattle.rules.specs.Numbers.{or_zero, index_of, number_of};
ghost use Rattle.inode.specs.Converted.{full_of, Converts};

use rules::codes::{VfsError, VfsResult};

// A full inode number: an index and a number below 2^56.
#[derive(Clone, Copy, Debug, PartialEq, Eq)]
pub struct VfsInode(pub u64);

// The number of a node of the tree.
#[derive(Clone, Copy, Debug, PartialEq, Eq)]
pub struct NodeNumber(pub u64);

// A number as a backend has it.
#[derive(Clone, Copy, Debug, PartialEq, Eq)]
pub struct BackendNumber(pub u64);

// The index stands above so many bits (R6).
const VFS_INDEX_SHIFT: u64 = 56;

// The full number of an index and a number (R6, R7).
fn joined(fs_idx: u8, number: u64) -> VfsResult<VfsInode>
    ensures { Converts fs_idx number result }
{
    if rules::VFS_MAX_INO < number {
        return Err(VfsError::Inode);
    }
    if number == 0 {
        return Ok(VfsInode(0));
    }
    Ok(VfsInode(((fs_idx as u64) << VFS_INDEX_SHIFT) + number))
}

// The full number of a backend's number under its index, or INODE (R7).
pub fn convert_inode(fs_idx: u8, number: BackendNumber) -> VfsResult<VfsInode>
    ensures { Converts fs_idx number.0 result }
{
    joined(fs_idx, number.0)
}

// The full number of a node of the tree, which has index 0, or INODE (R7, R11).
pub fn pseudo_inode(number: NodeNumber) -> VfsResult<VfsInode>
    ensures { Converts 0 number.0 result }
{
    joined(rules::VFS_PSEUDO_FS_IDX, number.0)
}

impl VfsInode {
    // The index of a full number: its top 8 bits (R6).
    pub fn fs_idx(self) -> u8
        ensures { result ≡ index_of self.0 }
    {
        (self.0 >> VFS_INDEX_SHIFT) as u8
    }

    // The number in a full number: its low 56 bits (R6).
    pub fn ino(self) -> u64
        ensures { result ≡ number_of self.0 }
    {
        self.0 % rules::NUMBERS
    }

    // The full number belongs to the tree: its index is 0 (R11).
    pub fn is_pseudo_fs(self) -> bool
        ensures { result ≡ eqb (index_of self.0) 0 }
    {
        self.fs_idx() == rules::VFS_PSEUDO_FS_IDX
    }
}

// The full number of a conversion, or 0 for INODE (R7, R16).
pub fn or_zero(c: VfsResult<VfsInode>) -> VfsInode
    ensures { result.0 ≡ or_zero (full_of c) }
{
    c.unwrap_or(VfsInode(0))
}
