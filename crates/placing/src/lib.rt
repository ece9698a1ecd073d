// A mount placed on a node, and taken off it: slot, mount and node are changed together, here and nowhere else. Nothing here is for a host: the layout rule is the
// condition of each function.
#![tactic(auto)]

ghost use Rattle.std.specs.Prelude.{◌≡◌, true, ◌<◌, ◌^◌};
ghost use Rattle.tables.specs.Laid.{laid};
ghost use Rattle.tables.specs.Answer.{mount_of_point, RowOf};
ghost use Rattle.placing.specs.Place.{out_mem, Frees, Places, TakesOff};

use tables::mounts::MountPoint;

// The tag found on the node, and the tag then still in the slot of the new index.
#[derive(Clone, Copy)]
pub struct Tags {
    pub replaced: Option<u32>,
    pub displaced: Option<u32>,
}

// The tag of a mount's index, whose slot is empty then. Without a mount nothing changes.
fn free_old(s: &mut [u8], old: Option<MountPoint>) -> Option<u32>
    requires { laid s.old ≡ true }
    ensures { Frees s.old old result s.new }
{
    let k = old?.fs_idx;
    let tag = tables::slots::tag_of(s, k);
    tables::slots::free(s, k);
    tag
}

// A mount on a node loses its index before the new one is set; answers the tag found there, and the tag then still in the new slot (R76, R78, R93).
pub fn place(s: &mut [u8], x: u64, m: MountPoint, tag: u32) -> Tags
    requires s_value { laid s.old ≡ true }
    requires root_bound { m.root < 2 ^ 56 }
    ensures { Places s.old (mount_of_point m) tag x result s.new }
{
    let here = tables::mounts::with_parent(s, x);
    let replaced = free_old(s, here.mount);
    let displaced = tables::slots::tag_of(s, m.fs_idx);
    tables::mounts::set(s, x, here.row, m);
    tables::slots::hold(s, m.fs_idx, tag);
    Tags {
        replaced,
        displaced,
    }
}

// With removal set, the node, in that row, is taken out of the table; the root has no row (R100).
fn take_out(s: &mut [u8], x: u64, row: Option<usize>)
    requires s_value { laid s.old ≡ true }
    requires row_of { RowOf s.old x row }
    ensures { s.new ≡ out_mem x s.old }
{
    if !tables::header::removes(s) {
        return;
    }
    if let Some(i) = row {
        tables::rows::remove(s, i);
    }
}

// The mount m is taken off the node x, in that row, and its index freed; answers the tag released, or none (R97, R98, R100).
pub fn take_off(s: &mut [u8], x: u64, row: Option<usize>, m: MountPoint) -> Option<u32>
    requires s_value { laid s.old ≡ true }
    requires row_of { RowOf s.old x row }
    ensures { TakesOff s.old (mount_of_point m) x result s.new }
{
    let tag = tables::slots::tag_of(s, m.fs_idx);
    tables::mounts::clear(s, x, row);
    take_out(s, x, row);
    tables::slots::free(s, m.fs_idx);
    tag
}
