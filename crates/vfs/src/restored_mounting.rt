// Restored mount: the index is given, and the counter stays.
ghost use Rattle.rules.specs.Instance.{Instance};
ghost use Rattle.rules.specs.Mount.{restore_mount_rule};
ghost use Rattle.call_form.specs.Form.{Does};
ghost use Rattle.mount_parts.specs.Mounting.{request_of};
ghost use Rattle.mount_parts.specs.RestoredMounting.{restored_mount_told, restore_mount_mem};

use crate::first_rows::check_first;
use mount_parts::backend::Backend;
use mount_parts::restored_mounting::RestoredMount;
use rules::codes::{VfsError, VfsResult};

// SMALL, then the first of the rows of a restored mount that applies, or the mount at the index given (R19, R91 to R95).
pub fn restore_mount(s: &mut [u8], fs_idx: u8, path: &[u8], b: Backend) -> VfsResult<RestoredMount>
    ensures { Does s.old (λ (i : Instance). restore_mount_rule i fs_idx (request_of path.now b)) (restored_mount_told result) s.new (restore_mount_mem fs_idx (request_of path.now b) s.old) }
{
    check_first(s, path)?;
    if fs_idx == rules::VFS_PSEUDO_FS_IDX {
        return Err(VfsError::BadIndex);
    }
    if rules::VFS_MAX_INO < b.largest {
        return Err(VfsError::Inode);
    }
    if !path::components::is_rooted(path) {
        return Err(VfsError::Inval);
    }
    rooted_mount::restored_mounting::restore_mount_rooted(s, fs_idx, path, b)
}
