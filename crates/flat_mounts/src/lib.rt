// The answers of mount, restored mount and unmount as structs of plain numbers: an enum does not cross to C, its numbers do. A refusal has zeros in every field but the count (R16).
#![tactic(auto)]

ghost use Rattle.std.specs.Prelude.{◌≡◌};
ghost use Rattle.mount_parts.specs.Mounting.{mounted_told};
ghost use Rattle.mount_parts.specs.RestoredMounting.{restored_mount_told};
ghost use Rattle.vfs.specs.Unmounting.{unmounted_told};
ghost use Rattle.flat.specs.Flat.{mount_numbers, restore_mount_numbers, umount_numbers};

use flat::{MountAnswer, RestoreMountAnswer, UmountAnswer};
use mount_parts::mounting::{MountRefused, Mounted};
use mount_parts::restored_mounting::RestoredMount;
use rules::codes::{DONE, VfsResult};
use vfs::unmounting::Unmounted;

// What a mount answers, as numbers (R68 to R79).
pub fn mounted(a: Result<Mounted, MountRefused>) -> MountAnswer
    ensures { result ≡ mount_numbers (mounted_told a) }
{
    match a {
        Ok(m) => MountAnswer {
            code: DONE,
            fs_idx: u32::from(m.fs_idx),
            count: m.count,
            has_replaced: u32::from(m.replaced.is_some()),
            replaced: m.replaced.unwrap_or(0),
        },
        Err(r) => MountAnswer {
            code: r.why.code(),
            count: r.count,
            ..Default::default()
        },
    }
}

// What a restored mount answers, as numbers (R91 to R95).
pub fn restored_mount(a: VfsResult<RestoredMount>) -> RestoreMountAnswer
    ensures { result ≡ restore_mount_numbers (restored_mount_told a) }
{
    match a {
        Ok(r) => RestoreMountAnswer {
            code: DONE,
            has_replaced: u32::from(r.replaced.is_some()),
            replaced: r.replaced.unwrap_or(0),
            has_displaced: u32::from(r.displaced.is_some()),
            displaced: r.displaced.unwrap_or(0),
        },
        Err(e) => RestoreMountAnswer {
            code: e.code(),
            ..Default::default()
        },
    }
}

// What an unmount answers, as numbers (R96, R97).
pub fn unmounted(a: VfsResult<Unmounted>) -> UmountAnswer
    ensures { result ≡ umount_numbers (unmounted_told a) }
{
    match a {
        Ok(u) => UmountAnswer {
            code: DONE,
            has_released: u32::from(u.released.is_some()),
            node: u.node.0,
            parent: u.parent.0,
            released: u.released.unwrap_or(0),
        },
        Err(e) => UmountAnswer {
            code: e.code(),
            ..Default::default()
        },
    }
}
