// Mount of a path with leading slash: where it ends, the search, the nodes made and the placing.
ghost use Rattle.std.specs.Prelude.{◌≡◌, true, false};
ghost use Rattle.tables.specs.Laid.{laid};
ghost use Rattle.rules.specs.Path.{rooted, too_long};
ghost use Rattle.tables.specs.View.{view};
ghost use Rattle.mount_parts.specs.Follows.{Follows};
ghost use Rattle.mount_parts.specs.Mounting.{request_of, mounted_told, rooted_mem, rooted_rule};
ghost use Rattle.rooted_mount.specs.PathEnds.{Lacks};

use crate::path_end::{PathEnd, plan_end};
use mount_parts::backend::Backend;
use mount_parts::mounting::{MountRefused, Mounted, allocate, mount_at};
use plan::{UNPLANNED, apply_plan};
use pseudo_fs::inner::walk;
use rules::codes::VfsError;

// Rows 5, 7 and 8 where a path with leading slash ends: the nodes that it lacks are made once an index is found (R72, R74, R75).
fn mount_at_end(
    s: &mut [u8],
    path: &[u8],
    end: PathEnd<'_>,
    b: Backend,
) -> Result<Mounted, MountRefused>
    requires s_value { laid s.old ≡ true }
    requires path_value { too_long path.now ≡ false }
    requires path_value_2 { rooted path.now ≡ true }
    requires lacks { Lacks s.old path.now end.lacking.now end.node }
    ensures { Follows (rooted_rule (view s.old) (request_of path.now b)) (rooted_mem (request_of path.now b) s.old) (mounted_told result) s.new }
{
    let found = allocate(s);
    let count = found.count;
    let fs_idx = found.answer.ok_or(MountRefused {
        why: VfsError::Full,
        count,
    })?;
    apply_plan(s, path, end.lacking);
    mount_at(s, fs_idx, count, end.node, b)
}

// Rows 4, 5, 7 and 8 of a path that lacks a node: what it lacks is planned, in an array that no other mount has on its stack (R71, R72, R74, R75).
#[inline(never)]
fn mount_new(s: &mut [u8], path: &[u8], b: Backend) -> Result<Mounted, MountRefused>
    requires s_value { laid s.old ≡ true }
    requires path_value { too_long path.now ≡ false }
    requires path_value_2 { rooted path.now ≡ true }
    ensures { Follows (rooted_rule (view s.old) (request_of path.now b)) (rooted_mem (request_of path.now b) s.old) (mounted_told result) s.new }
{
    let mut nodes = [UNPLANNED; rules::MAX_NODES];
    let end = plan_end(s, path, &mut nodes)?;
    mount_at_end(s, path, end, b)
}

// Rows 4, 5, 7 and 8, of a path with leading slash: nothing is planned where the walk finds the whole path (R71, R72, R74, R75).
pub fn mount_rooted(s: &mut [u8], path: &[u8], b: Backend) -> Result<Mounted, MountRefused>
    requires s_value { laid s.old ≡ true }
    requires path_value { too_long path.now ≡ false }
    requires path_value_2 { rooted path.now ≡ true }
    ensures { Follows (rooted_rule (view s.old) (request_of path.now b)) (rooted_mem (request_of path.now b) s.old) (mounted_told result) s.new }
{
    if let Some(node) = walk(s, path) {
        return mount_at_end(s, path, PathEnd { lacking: &[], node }, b);
    }
    mount_new(s, path, b)
}
