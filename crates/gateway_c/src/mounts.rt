// The mount tables: mount, restored mount, unmount, the root query and routing.
ghost use Rattle.std.specs.Prelude.{◌≡◌};
ghost use Rattle.rules.specs.Instance.{Instance};
ghost use Rattle.rules.specs.Mount.{mount_rule, restore_mount_rule};
ghost use Rattle.rules.specs.Unmount.{unmount_rule};
ghost use Rattle.rules.specs.Rootfs.{root_rule};
ghost use Rattle.rules.specs.Lookup.{route_rule};
ghost use Rattle.call_form.specs.Form.{answered_by, DoesBy};
ghost use Rattle.mount_parts.specs.Mounting.{mount_mem};
ghost use Rattle.mount_parts.specs.RestoredMounting.{restore_mount_mem};
ghost use Rattle.vfs.specs.Unmounting.{unmount_mem};
ghost use Rattle.flat.specs.Flat.{mount_numbers, restore_mount_numbers, umount_numbers, rootfs_numbers, route_numbers};
ghost use Rattle.gateway.specs.Calls.{request_by};

use flat::{MountAnswer, RestoreMountAnswer, RootfsAnswer, RouteAnswer, UmountAnswer};

// The first of the rows of a mount that applies, or the mount (R68 to R79).
#[unsafe(no_mangle)]
pub extern "C" fn galdovar_mount(
    storage: &mut [u8],
    path: &[u8],
    tag: u32,
    root: u64,
    largest: u64,
    uid: u32,
    gid: u32,
    mode: u32,
) -> MountAnswer
    ensures { DoesBy mount_numbers storage.old (λ (i : Instance). mount_rule i (request_by path.now tag root largest uid gid mode)) result storage.new (mount_mem (request_by path.now tag root largest uid gid mode) storage.old) }
{
    gateway::mounts::galdovar_mount(storage, path, tag, root, largest, uid, gid, mode)
}

// The first of the rows of a restored mount that applies, or the mount at the index given (R91 to R95).
#[unsafe(no_mangle)]
pub extern "C" fn galdovar_restore_mount(
    storage: &mut [u8],
    fs_idx: u8,
    path: &[u8],
    tag: u32,
    root: u64,
    largest: u64,
    uid: u32,
    gid: u32,
    mode: u32,
) -> RestoreMountAnswer
    ensures { DoesBy restore_mount_numbers storage.old (λ (i : Instance). restore_mount_rule i fs_idx (request_by path.now tag root largest uid gid mode)) result storage.new (restore_mount_mem fs_idx (request_by path.now tag root largest uid gid mode) storage.old) }
{
    gateway::mounts::galdovar_restore_mount(
        storage, fs_idx, path, tag, root, largest, uid, gid, mode,
    )
}

// Takes the mount off the node that the path leads to, and frees its index (R96 to R100).
#[unsafe(no_mangle)]
pub extern "C" fn galdovar_umount(storage: &mut [u8], path: &[u8]) -> UmountAnswer
    ensures { DoesBy umount_numbers storage.old (λ (i : Instance). unmount_rule i path.now) result storage.new (unmount_mem path.now storage.old) }
{
    gateway::mounts::galdovar_umount(storage, path)
}

// The backend mounted where a path leads, none for no path or no mount, or NOTFOUND where its slot is empty (R103, R104).
#[unsafe(no_mangle)]
pub extern "C" fn galdovar_get_rootfs(storage: &[u8], path: &[u8]) -> RootfsAnswer
    ensures { result ≡ rootfs_numbers (answered_by storage.now (λ (i : Instance). root_rule i path.now)) }
{
    gateway::mounts::galdovar_get_rootfs(storage, path)
}

// Where a full number goes: to the tree, to a backend, or NOENT (R105 to R107).
#[unsafe(no_mangle)]
pub extern "C" fn galdovar_route(storage: &[u8], inode: u64) -> RouteAnswer
    ensures { result ≡ route_numbers (answered_by storage.now (λ (i : Instance). route_rule i inode)) }
{
    gateway::mounts::galdovar_route(storage, inode)
}
