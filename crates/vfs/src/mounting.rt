// Mount: the rows in their order.
ghost use Rattle.rules.specs.Mount.{mount_rule};
ghost use Rattle.call_form.specs.Form.{Does};
ghost use Rattle.mount_parts.specs.Mounting.{request_of, mounted_told, mount_mem};

use crate::first_rows::check_first;
use mount_parts::backend::Backend;
use mount_parts::mounting::{MountRefused, Mounted};
use rules::codes::VfsError;

// SMALL, then the first of the rows of a mount that applies, or the mount (R19, R68 to R79).
pub fn mount(s: &mut [u8], path: &[u8], b: Backend) -> Result<Mounted, MountRefused>
    ensures { Does s.old (λ i. mount_rule i (request_of path.now b)) (mounted_told result) s.new (mount_mem (request_of path.now b) s.old) }
{
    check_first(s, path)?;
    if rules::VFS_MAX_INO < b.largest {
        return Err(VfsError::Inode.into());
    }
    if !path::components::is_rooted(path) {
        return Err(mount_parts::mounting::unrooted(s));
    }
    rooted_mount::mounting::mount_rooted(s, path, b)
}
