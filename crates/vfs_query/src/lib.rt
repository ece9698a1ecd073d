// What a host asks of the mount tables: routing, the root query, lookup across mounts, and ids by the mapping in force. Nothing is written.
#![tactic(auto)]

ghost use Rattle.std.specs.Prelude.{◌≡◌, true, Ok, Err, ok_or};
ghost use Rattle.rules.specs.Instance.{Instance, tag_of};
ghost use Rattle.rules.specs.Lookup.{route_tag, route_rule, lookup_rule, remap_rule};
ghost use Rattle.rules.specs.Rootfs.{root_rule};
ghost use Rattle.tables.specs.View.{view};
ghost use Rattle.tables.specs.Laid.{laid};
ghost use Rattle.call_form.specs.Form.{told_by, answered_by};
ghost use Rattle.tables.specs.Answer.{mount_of_point};
ghost use Rattle.pseudo_fs.specs.Told.{entry_answer};
ghost use Rattle.vfs_query.specs.Told.{routed_told, rootfs_told, remapped_told, looked_told, root_answer};

use inode::{BackendNumber, NodeNumber, VfsInode};
use pseudo_fs::inner::{find, pseudo_entry};
use pseudo_fs::{Entry, path_walk};
use rules::codes::{VfsError, VfsResult};
use storage::check_laid;
use tables::mounts::{MountPoint, of_node, of_root};
use tables::slots::tag_of;

// Where a full number goes: to the tree, or to a backend.
#[derive(Clone, Copy)]
pub enum Routed {
    Tree(NodeNumber),
    Backend {
        tag: u32,
        fs_idx: u8,
        ino: BackendNumber,
    },
}

// The backend of a mount.
#[derive(Clone, Copy)]
pub struct Rootfs {
    pub tag: u32,
    pub fs_idx: u8,
}

// Ids after mapping.
#[derive(Clone, Copy)]
pub struct Remapped {
    pub uid: u32,
    pub gid: u32,
}

// The backend of an index, or NOENT where its slot is empty (R105, R106).
fn route_tag(s: &[u8], fs_idx: u8, number: u64) -> VfsResult<Routed>
    requires { laid s.now ≡ true }
    ensures { routed_told result ≡ told_by (route_tag (view s.now) fs_idx number (tag_of (view s.now) fs_idx)) }
{
    let tag = tag_of(s, fs_idx).ok_or(VfsError::NoEnt)?;
    Ok(Routed::Backend {
        tag,
        fs_idx,
        ino: BackendNumber(number),
    })
}

// Where a full number goes, the Rust's get_real_rootfs: index 0 to the tree, but number 1 to what is mounted on the root, if anything is; any other index to its tag; NOENT where a slot is empty; SMALL before all else (R19, R105, R106, R107).
pub fn route(s: &[u8], x: VfsInode) -> VfsResult<Routed>
    ensures { routed_told result ≡ answered_by s.now (λ (i : Instance). route_rule i x.0) }
{
    check_laid(s)?;
    let ino = x.ino();
    if !x.is_pseudo_fs() {
        return route_tag(s, x.fs_idx(), ino);
    }
    if ino != rules::ROOT_ID {
        return Ok(Routed::Tree(NodeNumber(ino)));
    }
    match of_root(s) {
        Some(m) => route_tag(s, m.fs_idx, m.root),
        None => Ok(Routed::Tree(NodeNumber(ino))),
    }
}

// The backend mounted where a path leads, nothing for no path or no mount, or NOTFOUND where its slot is empty; SMALL before all else (R19, R103, R104).
pub fn get_rootfs(s: &[u8], path: &[u8]) -> VfsResult<Option<Rootfs>>
    ensures { rootfs_told result ≡ answered_by s.now (λ (i : Instance). root_rule i path.now) }
{
    let Some(x) = path_walk(s, path)? else {
        return Ok(None);
    };
    let Some(m) = of_node(s, x.0) else {
        return Ok(None);
    };
    let tag = tag_of(s, m.fs_idx).ok_or(VfsError::NotFound)?;
    Ok(Some(Rootfs {
        tag,
        fs_idx: m.fs_idx,
    }))
}

// The ids of an attribute by the mapping in force, out or back; SMALL before all else (R19, R113, R114, R118).
pub fn remap_attr_id(s: &[u8], uid: u32, gid: u32, outward: bool) -> VfsResult<Remapped>
    ensures { remapped_told result ≡ answered_by s.now (λ (i : Instance). remap_rule i outward uid gid) }
{
    check_laid(s)?;
    let mapping = tables::header::mapping(s);
    let remap = |id| {
        if outward {
            id_map::map_out(mapping, id)
        } else {
            id_map::map_back(mapping, id)
        }
    };
    Ok(Remapped {
        uid: remap(uid),
        gid: remap(gid),
    })
}

// The root entry of a mount: its full number from the root number, or 0 where that is above 2^56 − 1, which no mount's is, its ids mapped twice, its mode as the request brought it, block size 0 (R7, R77, R108, R109).
fn root_entry(s: &[u8], m: MountPoint) -> Entry
    requires { laid s.now ≡ true }
    ensures { entry_answer result ≡ root_answer (view s.now) (mount_of_point m) }
{
    let mapping = tables::header::mapping(s);
    let out = |id| id_map::map_out(mapping, id);
    Entry {
        inode: inode::or_zero(inode::convert_inode(m.fs_idx, BackendNumber(m.root))),
        mode: m.mode,
        uid: out(out(m.uid)),
        gid: out(out(m.gid)),
        blksize: 0,
    }
}

// In a directory by a name, the Rust's lookup_pseudo: the root entry of the mount on what is found, by `.` and `..` too, or its pseudo entry; SMALL before all else (R19, R57 to R60, R108 to R111).
pub fn lookup(s: &[u8], parent: NodeNumber, name: &[u8]) -> VfsResult<Entry>
    ensures { looked_told result ≡ answered_by s.now (λ (i : Instance). lookup_rule i parent.0 name.now) }
{
    check_laid(s)?;
    let x = find(s, parent.0, name)?;
    Ok(match of_node(s, x) {
        Some(m) => root_entry(s, m),
        None => pseudo_entry(s, x),
    })
}
