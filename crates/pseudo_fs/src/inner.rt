// The walk, the find and the pseudo entry in bytes that keep the layout rule: nothing here is for a host.
ghost use Rattle.std.specs.Prelude.{◌≡◌};
ghost use Rattle.rules.specs.Reached.{reached};
ghost use Rattle.tables.specs.View.{nodes_of, view};
ghost use Rattle.tables.specs.Laid.{Bounds};
ghost use Rattle.pseudo_fs.specs.Finds.{child_finding, Finds};
ghost use Rattle.pseudo_fs.specs.Told.{entry_answer, pseudo_answer};

use crate::Entry;
use inode::NodeNumber;
use path::components::{Component, next_component};
use path::names::{has_byte, is_dot, is_dots};
use rules::codes::{VfsError, VfsResult};
use scan::names::key_of;
use tables::rows::{child_alike, find_child, is_known, next_alike, number, parent_of};
use utf8::{is_plain, is_utf8};

// The node where the walk from the root along the components of a path ends, or nothing (R37, R38, R39, R45, R46); the outer loop has its label (R173).
pub fn walk(s: &[u8], path: &[u8]) -> Option<u64>
    requires { Bounds s.now }
    ensures { result ≡ reached (view s.now) path.now }
{
    let mut node = rules::ROOT_ID;
    let mut at = 0;
    'outer: while let Some(component) = next_component(path, at) {
        match component {
            Component::ParentDir { next, .. } => {
                node = parent_of(s, node);
                at = next;
            }
            Component::Normal { start, next, .. } => {
                let key = key_of(&path[start..next]);
                let mut i = 0;
                while let Some(j) = next_alike(s, i, key) {
                    if child_alike(s, j, node, &path[start..next]) {
                        node = number(s, j);
                        at = next;
                        continue 'outer;
                    }
                    i = j + 1;
                }
                return None;
            }
        }
    }
    Some(node)
}

// The child of that name, or NOENT; a name with a slash is NOENT, whatever the rows hold (R45, R59).
#[tactic(auto, unfolding(crate::specs::Finds::child_finding))]
fn child_in(s: &[u8], x: u64, name: &[u8]) -> VfsResult<u64>
    requires { Bounds s.now }
    ensures { result ≡ child_finding (nodes_of s.now) x name.now }
{
    if has_byte(name, b'/') {
        return Err(VfsError::NoEnt);
    }
    find_child(s, x, name).ok_or(VfsError::NoEnt)
}

// In a directory: NOENT where it is no node; INVAL where the name has byte 0 or is not UTF-8; then `.`, `..`, the child or NOENT (R57, R58, R59). Of a plain name only the first test and the slash are left to ask.
pub fn find(s: &[u8], x: u64, name: &[u8]) -> VfsResult<u64>
    requires { Bounds s.now }
    ensures { Finds (nodes_of s.now) x name.now result }
{
    if !is_known(s, x) {
        return Err(VfsError::NoEnt);
    }
    if is_plain(name) {
        return child_in(s, x, name);
    }
    if has_byte(name, 0) || !is_utf8(name) {
        return Err(VfsError::Inval);
    }
    if is_dot(name) {
        return Ok(x);
    }
    if is_dots(name) {
        return Ok(parent_of(s, x));
    }
    child_in(s, x, name)
}

// The pseudo entry of a node, with its ids mapped out by the mapping in force; its full number is 0 where the number is above 2^56 − 1, which no node's is (R7, R13, R118).
pub fn pseudo_entry(s: &[u8], x: u64) -> Entry
    requires { Bounds s.now }
    ensures { entry_answer result ≡ pseudo_answer (view s.now) x }
{
    let id = id_map::map_out(tables::header::mapping(s), 0);
    Entry {
        inode: inode::or_zero(inode::pseudo_inode(NodeNumber(x))),
        mode: rules::DIR_MODE,
        uid: id,
        gid: id,
        blksize: rules::BLOCK_SIZE,
    }
}
