// A part of a restored mount: rows 7 and 8. Nothing but what is answered is for a host.
ghost use Rattle.std.specs.Prelude.{◌≡◌, true, ◌≤◌};
ghost use Rattle.tables.specs.Laid.{laid};
ghost use Rattle.mount_parts.specs.RestoredMounting.{RestoresMountAt};

use crate::backend::Backend;
use crate::inner::insert_mount;
use rules::codes::VfsResult;

// What a done restored mount answers: the tag replaced on the node and the tag displaced in the slot, where there were any.
#[derive(Clone, Copy)]
pub struct RestoredMount {
    pub replaced: Option<u32>,
    pub displaced: Option<u32>,
}

// Rows 7 and 8 on the node x, at the index given (R92, R93).
pub fn restore_mount_at(s: &mut [u8], fs_idx: u8, x: u64, b: Backend) -> VfsResult<RestoredMount>
    requires s_value { laid s.old ≡ true }
    requires le_fs_idx { 1 ≤ fs_idx }
    ensures { RestoresMountAt s.old fs_idx x b result s.new }
{
    let tags = insert_mount(s, fs_idx, x, b)?;
    Ok(RestoredMount {
        replaced: tags.replaced,
        displaced: tags.displaced,
    })
}
