// Calls on the storage, the tree and the mount tables; each function here makes one and tells its answer.
use crate::sink::Sink;
use crate::verbs::Verb;
use inode::{BackendNumber, NodeNumber, VfsInode};
use mount_parts::backend::Backend;
use test_words::numbers::{least, low8, low32};
use test_words::sums;

fn create(n: &[u64; 8], s: &mut [u8], sink: &mut Sink) {
    let [
        nodes,
        known,
        in_opts,
        out_opts,
        flags,
        internal,
        external,
        range,
    ] = *n;
    let options = vfs_options::VfsOptions {
        in_opts,
        out_opts,
        id_mapping: id_map::IdMapping {
            internal: low32(internal),
            external: low32(external),
            range: low32(range),
        },
        flags: low8(flags),
    };
    let a = storage::create(s, nodes as usize, known, options);
    sink.answer(flat_instance::created(a).code, &[]);
}

fn options(s: &[u8], sink: &mut Sink) {
    let a = flat_instance::options(storage::options(s));
    let v = [
        a.in_opts,
        a.out_opts,
        a.internal as u64,
        a.external as u64,
        a.range as u64,
        a.flags as u64,
    ];
    sink.answer(a.code, &v);
}

// Whether there is such a node, and its number.
fn walk(s: &[u8], path: &[u8], sink: &mut Sink) {
    let a = flat_queries::walked(pseudo_fs::path_walk(s, path));
    sink.answer(a.code, &[a.has_node as u64, a.node]);
}

// Full number, mode, uid, gid and block size.
fn lookup(s: &[u8], node: u64, name: &[u8], sink: &mut Sink) {
    let a = flat_queries::looked(vfs_query::lookup(s, NodeNumber(node), name));
    let v = [
        a.inode,
        a.mode as u64,
        a.uid as u64,
        a.gid as u64,
        a.blksize as u64,
    ];
    sink.answer(a.code, &v);
}

// What stands in the lent output before a listing.
const BEFORE: u8 = 165;

// A listing into a buffer: how many bytes were written, and the sum of them all.
fn listed(n: &[u64; 8], s: &[u8], out: &mut [u8], sink: &mut Sink) {
    out.fill(BEFORE);
    let [node, size, offset, ..] = *n;
    let a = flat_bytes::listed(listing::readdir(s, NodeNumber(node), low32(size), offset, out));
    sink.answer(a.code, &[a.written, sums::with_run(sums::START, out)]);
}

// Small output is lent from a small buffer, which takes less time to make.
fn list(n: &[u64; 8], s: &[u8], sink: &mut Sink) {
    let room = n[3];
    if room <= 4096 {
        let mut small = io::buffer();
        listed(n, s, &mut small[..room as usize], sink);
        return;
    }
    let mut large = io::large_buffer();
    listed(n, s, &mut large[..least(room, 65536)], sink);
}

// The backend of a mount, by its numbers.
fn backend(n: [u64; 6]) -> Backend {
    let [tag, root, largest, uid, gid, mode] = n;
    Backend {
        tag: low32(tag),
        root: BackendNumber(root),
        largest,
        uid: low32(uid),
        gid: low32(gid),
        mode: low32(mode),
    }
}

// Index, count, whether a tag was replaced, and that tag.
fn mount(n: &[u64; 8], s: &mut [u8], path: &[u8], sink: &mut Sink) {
    let [tag, root, largest, uid, gid, mode, ..] = *n;
    let b = backend([tag, root, largest, uid, gid, mode]);
    let a = flat_mounts::mounted(vfs::mounting::mount(s, path, b));
    let v = [
        a.fs_idx as u64,
        a.count as u64,
        a.has_replaced as u64,
        a.replaced as u64,
    ];
    sink.answer(a.code, &v);
}

// Whether a tag was replaced, that tag, whether one was displaced, and that tag. The index stands before the numbers of the backend.
fn mount_at(n: &[u64; 8], s: &mut [u8], path: &[u8], sink: &mut Sink) {
    let [index, tag, root, largest, uid, gid, mode, _] = *n;
    let b = backend([tag, root, largest, uid, gid, mode]);
    let mounted = vfs::restored_mounting::restore_mount(s, low8(index), path, b);
    let a = flat_mounts::restored_mount(mounted);
    let v = [
        a.has_replaced as u64,
        a.replaced as u64,
        a.has_displaced as u64,
        a.displaced as u64,
    ];
    sink.answer(a.code, &v);
}

// Node, parent, whether a tag was released, and that tag.
fn umount(s: &mut [u8], path: &[u8], sink: &mut Sink) {
    let a = flat_mounts::unmounted(vfs::unmounting::umount(s, path));
    let v = [a.node, a.parent, a.has_released as u64, a.released as u64];
    sink.answer(a.code, &v);
}

// Whether to a backend, its tag, its index, and the number.
fn route(number: u64, s: &[u8], sink: &mut Sink) {
    let a = flat_queries::routed(vfs_query::route(s, VfsInode(number)));
    let v = [a.to_backend as u64, a.tag as u64, a.fs_idx as u64, a.number];
    sink.answer(a.code, &v);
}

// Whether there is one, its tag, and its index.
fn root(s: &[u8], path: &[u8], sink: &mut Sink) {
    let a = flat_queries::rootfs(vfs_query::get_rootfs(s, path));
    let v = [a.has_backend as u64, a.tag as u64, a.fs_idx as u64];
    sink.answer(a.code, &v);
}

fn ids(n: &[u64; 8], s: &[u8], sink: &mut Sink) {
    let [uid, gid, outward, ..] = *n;
    let mapped = vfs_query::remap_attr_id(s, low32(uid), low32(gid), outward != 0);
    let a = flat_queries::remapped(mapped);
    sink.answer(a.code, &[a.uid as u64, a.gid as u64]);
}

fn init(s: &[u8], sink: &mut Sink) {
    let a = flat_instance::initialized(storage::initialized(s));
    sink.answer(a.code, &[a.initialized as u64]);
}

// What is told of a verb that is none of a script's.
const UNKNOWN: u32 = 99;

// A call by its verb, with the numbers and the text of the line, on the lent bytes.
pub fn call(verb: Option<Verb>, n: &[u64; 8], text: &[u8], s: &mut [u8], sink: &mut Sink) {
    match verb {
        Some(Verb::Create) => create(n, s, sink),
        Some(Verb::Remove) => {
            let a = storage::set_remove_pseudo_root(s);
            sink.answer(flat_instance::removal(a).code, &[]);
        }
        Some(Verb::Mount) => mount(n, s, text, sink),
        Some(Verb::MountAt) => mount_at(n, s, text, sink),
        Some(Verb::Umount) => umount(s, text, sink),
        Some(Verb::Laid) => sink.answer(0, &[storage::is_laid(s) as u64]),
        Some(Verb::Init) => init(s, sink),
        Some(Verb::Options) => options(s, sink),
        Some(Verb::Walk) => walk(s, text, sink),
        Some(Verb::Lookup) => lookup(s, n[0], text, sink),
        Some(Verb::List) => list(n, s, sink),
        Some(Verb::Route) => route(n[0], s, sink),
        Some(Verb::Root) => root(s, text, sink),
        Some(Verb::Ids) => ids(n, s, sink),
        _ => sink.answer(UNKNOWN, &[]),
    }
}
