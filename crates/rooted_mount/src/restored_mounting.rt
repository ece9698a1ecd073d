// Restored mount of a path with leading slash: where it ends, the nodes made and the placing.
ghost use Rattle.std.specs.Prelude.{◌≡◌, true, false, ◌≤◌};
ghost use Rattle.rules.specs.Path.{rooted, too_long};
ghost use Rattle.tables.specs.View.{view};
ghost use Rattle.tables.specs.Laid.{laid};
ghost use Rattle.mount_parts.specs.Follows.{Follows};
ghost use Rattle.mount_parts.specs.Mounting.{request_of};
ghost use Rattle.mount_parts.specs.RestoredMounting.{restored_mount_told, restore_mount_rest, restore_mount_rest_mem};
ghost use Rattle.rooted_mount.specs.PathEnds.{Lacks};

use crate::path_end::{PathEnd, plan_end};
use mount_parts::backend::Backend;
use mount_parts::restored_mounting::{RestoredMount, restore_mount_at};
use plan::{UNPLANNED, apply_plan};
use pseudo_fs::inner::walk;
use rules::codes::VfsResult;

// Rows 7 and 8 where a path with leading slash ends: the nodes that it lacks are made (R92, R93).
fn restore_mount_at_end(
    s: &mut [u8],
    fs_idx: u8,
    path: &[u8],
    end: PathEnd<'_>,
    b: Backend,
) -> VfsResult<RestoredMount>
    requires s_value { laid s.old ≡ true }
    requires path_value { too_long path.now ≡ false }
    requires path_value_2 { rooted path.now ≡ true }
    requires le_fs_idx { 1 ≤ fs_idx }
    requires lacks { Lacks s.old path.now end.lacking.now end.node }
    ensures { Follows (restore_mount_rest (view s.old) fs_idx (request_of path.now b)) (restore_mount_rest_mem fs_idx (request_of path.now b) s.old) (restored_mount_told result) s.new }
{
    apply_plan(s, path, end.lacking);
    restore_mount_at(s, fs_idx, end.node, b)
}

// Rows 4, 7 and 8 of a path that lacks a node: what it lacks is planned, in an array that no other restored mount has on its stack (R91 to R95).
#[inline(never)]
fn restore_mount_new(s: &mut [u8], fs_idx: u8, path: &[u8], b: Backend) -> VfsResult<RestoredMount>
    requires s_value { laid s.old ≡ true }
    requires path_value { too_long path.now ≡ false }
    requires path_value_2 { rooted path.now ≡ true }
    requires le_fs_idx { 1 ≤ fs_idx }
    ensures { Follows (restore_mount_rest (view s.old) fs_idx (request_of path.now b)) (restore_mount_rest_mem fs_idx (request_of path.now b) s.old) (restored_mount_told result) s.new }
{
    let mut nodes = [UNPLANNED; rules::MAX_NODES];
    let end = plan_end(s, path, &mut nodes)?;
    restore_mount_at_end(s, fs_idx, path, end, b)
}

// Rows 4, 7 and 8, of a path with leading slash: nothing is planned where the walk finds the whole path (R91 to R95).
pub fn restore_mount_rooted(
    s: &mut [u8],
    fs_idx: u8,
    path: &[u8],
    b: Backend,
) -> VfsResult<RestoredMount>
    requires s_value { laid s.old ≡ true }
    requires path_value { too_long path.now ≡ false }
    requires path_value_2 { rooted path.now ≡ true }
    requires le_fs_idx { 1 ≤ fs_idx }
    ensures { Follows (restore_mount_rest (view s.old) fs_idx (request_of path.now b)) (restore_mount_rest_mem fs_idx (request_of path.now b) s.old) (restored_mount_told result) s.new }
{
    if let Some(node) = walk(s, path) {
        return restore_mount_at_end(s, fs_idx, path, PathEnd { lacking: &[], node }, b);
    }
    restore_mount_new(s, fs_idx, path, b)
}
