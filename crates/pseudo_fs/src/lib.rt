// The pseudo tree: the walk along a path, and the entry of a node.
#![tactic(auto)]

ghost use Rattle.std.specs.Prelude.{◌≡◌};
ghost use Rattle.rules.specs.Instance.{Instance};
ghost use Rattle.rules.specs.Reached.{walk_rule};
ghost use Rattle.call_form.specs.Form.{answered_by};
ghost use Rattle.pseudo_fs.specs.Told.{fault_of, path_walk_told};

use inner::walk;
use inode::{NodeNumber, VfsInode};
use path::components::is_rooted;
use rules::codes::{VfsError, VfsResult};
use storage::check_laid;
use utf8::is_utf8;

pub mod inner;

// The first fault of a path; either is INVAL (R15, R36).
#[derive(Clone, Copy)]
pub enum PathFault {
    Utf8,
    Slash,
}

// The entry of a node that was found.
#[derive(Clone, Copy)]
pub struct Entry {
    pub inode: VfsInode,
    pub mode: u32,
    pub uid: u32,
    pub gid: u32,
    pub blksize: u32,
}

// The whole path is tested for UTF-8 first, and only then for its leading slash (R36, R43).
#[tactic(auto, unfolding(crate::specs::Told::fault_of, rules::specs::Outcome::first_of))]
pub fn path_fault(path: &[u8]) -> Option<PathFault>
    ensures { result ≡ fault_of path.now }
{
    if !is_utf8(path) {
        return Some(PathFault::Utf8);
    }
    if !is_rooted(path) {
        return Some(PathFault::Slash);
    }
    None
}

// The node that a path leads to, from the root, or nothing; INVAL for a path with a fault; SMALL before all else (R19, R36, R46, R47).
#[tactic(auto, using(crate::proofs::Calls::fault_bad), unfolding(call_form::specs::Form::answered_by, rules::specs::Reached::walk_rule, rules::specs::Outcome::first_of))]
pub fn path_walk(s: &[u8], path: &[u8]) -> VfsResult<Option<NodeNumber>>
    ensures { path_walk_told result ≡ answered_by s.now (λ (i : Instance). walk_rule i path.now) }
{
    check_laid(s)?;
    if path_fault(path).is_some() {
        return Err(VfsError::Inval);
    }
    Ok(walk(s, path).map(NodeNumber))
}
