// The answers of the calls that only read as structs of plain numbers: an enum does not cross to C, its numbers do. A refusal has zeros in every field but the count (R16).
#![tactic(auto)]

ghost use Rattle.std.specs.Prelude.{◌≡◌};
ghost use Rattle.pseudo_fs.specs.Told.{path_walk_told};
ghost use Rattle.vfs_query.specs.Told.{routed_told, rootfs_told, remapped_told, looked_told};
ghost use Rattle.flat.specs.Flat.{rootfs_numbers, walk_numbers, route_numbers, lookup_numbers, ids_numbers};

use flat::{IdsAnswer, LookupAnswer, RootfsAnswer, RouteAnswer, WalkAnswer};
use inode::NodeNumber;
use pseudo_fs::Entry;
use rules::codes::{DONE, VfsResult};
use vfs_query::{Remapped, Rootfs, Routed};

// What a root query answers, as numbers: zeros where there is no backend (R103, R104).
pub fn rootfs(a: VfsResult<Option<Rootfs>>) -> RootfsAnswer
    ensures { result ≡ rootfs_numbers (rootfs_told a) }
{
    match a {
        Ok(Some(b)) => RootfsAnswer {
            code: DONE,
            has_backend: 1,
            tag: b.tag,
            fs_idx: u32::from(b.fs_idx),
        },
        Ok(None) => RootfsAnswer::default(),
        Err(e) => RootfsAnswer {
            code: e.code(),
            ..Default::default()
        },
    }
}

// What a walk answers, as numbers: zeros where it leads to no node (R46, R47).
pub fn walked(a: VfsResult<Option<NodeNumber>>) -> WalkAnswer
    ensures { result ≡ walk_numbers (path_walk_told a) }
{
    match a {
        Ok(Some(node)) => WalkAnswer {
            code: DONE,
            has_node: 1,
            node: node.0,
        },
        Ok(None) => WalkAnswer::default(),
        Err(e) => WalkAnswer {
            code: e.code(),
            ..Default::default()
        },
    }
}

// What routing answers, as numbers (R105, R106).
pub fn routed(a: VfsResult<Routed>) -> RouteAnswer
    ensures { result ≡ route_numbers (routed_told a) }
{
    match a {
        Ok(Routed::Tree(node)) => RouteAnswer {
            code: DONE,
            number: node.0,
            ..Default::default()
        },
        Ok(Routed::Backend { tag, fs_idx, ino }) => RouteAnswer {
            code: DONE,
            to_backend: 1,
            tag,
            fs_idx: u32::from(fs_idx),
            number: ino.0,
        },
        Err(e) => RouteAnswer {
            code: e.code(),
            ..Default::default()
        },
    }
}

// What a lookup answers, as numbers (R57 to R59, R108 to R111).
#[tactic(auto, unfolding(pseudo_fs::specs::Told::entry_answer))]
pub fn looked(a: VfsResult<Entry>) -> LookupAnswer
    ensures { result ≡ lookup_numbers (looked_told a) }
{
    match a {
        Ok(found) => LookupAnswer {
            code: DONE,
            mode: found.mode,
            inode: found.inode.0,
            uid: found.uid,
            gid: found.gid,
            blksize: found.blksize,
        },
        Err(e) => LookupAnswer {
            code: e.code(),
            ..Default::default()
        },
    }
}

// What the mapping of ids by the mapping in force answers, as numbers (R118).
pub fn remapped(a: VfsResult<Remapped>) -> IdsAnswer
    ensures { result ≡ ids_numbers (remapped_told a) }
{
    match a {
        Ok(ids) => IdsAnswer {
            code: DONE,
            uid: ids.uid,
            gid: ids.gid,
        },
        Err(e) => IdsAnswer {
            code: e.code(),
            ..Default::default()
        },
    }
}
