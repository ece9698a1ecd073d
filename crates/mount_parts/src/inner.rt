// Rows 7 and 8, which mount and restored mount share: the mount is placed. Nothing here is for a host.
ghost use Rattle.std.specs.Prelude.{◌≡◌, true, ◌≤◌};
ghost use Rattle.tables.specs.Laid.{laid};
ghost use Rattle.mount_parts.specs.Mounting.{Inserts};

use crate::backend::Backend;
use placing::Tags;
use rules::codes::{VfsError, VfsResult};
use tables::mounts::MountPoint;

// The mount on the node x, at an index: the tag found there, and the tag then still in the slot; INODE where the root number is too large (R74, R76, R78, R92, R93).
pub fn insert_mount(s: &mut [u8], fs_idx: u8, x: u64, b: Backend) -> VfsResult<Tags>
    requires s_value { laid s.old ≡ true }
    requires le_fs_idx { 1 ≤ fs_idx }
    ensures { Inserts s.old fs_idx x b result s.new }
{
    if rules::VFS_MAX_INO < b.root.0 {
        return Err(VfsError::Inode);
    }
    let m = MountPoint {
        fs_idx,
        root: b.root.0,
        uid: b.uid,
        gid: b.gid,
        mode: b.mode,
    };
    Ok(placing::place(s, x, m, b.tag))
}
