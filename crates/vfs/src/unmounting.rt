// Unmount: the walk along the path, then the mount taken off the node where it ends.
ghost use Rattle.std.specs.Prelude.{◌≡◌, true};
ghost use Rattle.rules.specs.Instance.{Instance};
ghost use Rattle.rules.specs.Unmount.{unmount_rule};
ghost use Rattle.tables.specs.Laid.{laid};
ghost use Rattle.call_form.specs.Form.{Does};
ghost use Rattle.vfs.specs.Unmounting.{unmounted_told, unmount_mem, Unmounts};

use inode::NodeNumber;
use pseudo_fs::path_walk;
use rules::codes::{VfsError, VfsResult};

// What a done unmount answers: the node, its parent, and the tag released, if there was one.
#[derive(Clone, Copy)]
pub struct Unmounted {
    pub node: NodeNumber,
    pub parent: NodeNumber,
    pub released: Option<u32>,
}

// The mount on the node x is taken off, if there is one.
fn unmount_at(s: &mut [u8], x: u64) -> VfsResult<Unmounted>
    requires { laid s.old ≡ true }
    ensures { Unmounts s.old x result s.new }
{
    let here = tables::mounts::with_parent(s, x);
    let m = here.mount.ok_or(VfsError::NotFound)?;
    let released = placing::take_off(s, x, here.row, m);
    Ok(Unmounted {
        node: NodeNumber(x),
        parent: NodeNumber(here.parent),
        released,
    })
}

// Takes the mount off the node that the path leads to, and frees its index; SMALL before all else (R19, R96 to R100).
pub fn umount(s: &mut [u8], path: &[u8]) -> VfsResult<Unmounted>
    ensures { Does s.old (λ (i : Instance). unmount_rule i path.now) (unmounted_told result) s.new (unmount_mem path.now s.old) }
{
    let x = path_walk(s, path)?.ok_or(VfsError::NotFound)?;
    unmount_at(s, x.0)
}
