// A call of the list on the port, through the functions for a host; each function here makes one and writes its answer.
use crate::told::{code, numbers, written};
use gateway::{instance, mounts, plain, state, tree};
use test_words::numbers::{least, low8, low32};

fn create(s: &mut [u8], r: [u64; 8]) {
    let [
        n,
        known,
        in_opts,
        out_opts,
        flags,
        internal,
        external,
        range,
    ] = r;
    let a = instance::galdovar_create(
        s,
        n as usize,
        known,
        in_opts,
        out_opts,
        low8(flags),
        low32(internal),
        low32(external),
        low32(range),
    );
    code(a.code);
}

fn mount(s: &mut [u8], path: &[u8], r: [u64; 8]) {
    let [tag, root, largest, uid, gid, mode, ..] = r;
    let a = mounts::galdovar_mount(
        s,
        path,
        low32(tag),
        root,
        largest,
        low32(uid),
        low32(gid),
        low32(mode),
    );
    numbers(&[
        a.code as u64,
        a.fs_idx as u64,
        a.count as u64,
        a.has_replaced as u64,
        a.replaced as u64,
    ]);
}

fn restore_mount(s: &mut [u8], path: &[u8], r: [u64; 8]) {
    let [index, tag, root, largest, uid, gid, mode, ..] = r;
    let a = mounts::galdovar_restore_mount(
        s,
        low8(index),
        path,
        low32(tag),
        root,
        largest,
        low32(uid),
        low32(gid),
        low32(mode),
    );
    numbers(&[
        a.code as u64,
        a.has_replaced as u64,
        a.replaced as u64,
        a.has_displaced as u64,
        a.displaced as u64,
    ]);
}

fn umount(s: &mut [u8], path: &[u8]) {
    let a = mounts::galdovar_umount(s, path);
    numbers(&[
        a.code as u64,
        a.node,
        a.parent,
        a.has_released as u64,
        a.released as u64,
    ]);
}

fn root(s: &[u8], path: &[u8]) {
    let a = mounts::galdovar_get_rootfs(s, path);
    numbers(&[
        a.code as u64,
        a.has_backend as u64,
        a.tag as u64,
        a.fs_idx as u64,
    ]);
}

fn walk(s: &[u8], path: &[u8]) {
    let a = tree::galdovar_path_walk(s, path);
    numbers(&[a.code as u64, a.has_node as u64, a.node]);
}

fn route(s: &[u8], full: u64) {
    let a = mounts::galdovar_route(s, full);
    numbers(&[
        a.code as u64,
        a.to_backend as u64,
        a.tag as u64,
        a.fs_idx as u64,
        a.number,
    ]);
}

fn lookup(s: &[u8], node: u64, name: &[u8]) {
    let a = tree::galdovar_lookup(s, node, name);
    numbers(&[
        a.code as u64,
        a.inode,
        a.mode as u64,
        a.uid as u64,
        a.gid as u64,
        a.blksize as u64,
    ]);
}

fn convert(index: u8, number: u64) {
    let a = plain::galdovar_convert_inode(index, number);
    numbers(&[a.code as u64, a.inode]);
}

fn ids(s: &[u8], uid: u64, gid: u64, outward: u32) {
    let a = instance::galdovar_remap_attr_id(s, low32(uid), low32(gid), outward);
    numbers(&[a.code as u64, a.uid as u64, a.gid as u64]);
}

// Two queries, told as one: the code is that of the first that is refused.
fn settings(s: &[u8]) {
    let i = instance::galdovar_initialized(s);
    let a = instance::galdovar_options(s);
    let code = if i.code == 0 { a.code } else { i.code };
    numbers(&[
        code as u64,
        i.initialized as u64,
        a.in_opts,
        a.out_opts,
        a.flags as u64,
        a.internal as u64,
        a.external as u64,
        a.range as u64,
    ]);
}

fn list(s: &[u8], r: [u64; 8], out: &mut [u8]) {
    let [node, size, offset, room, ..] = r;
    let n = least(room, out.len());
    let a = tree::galdovar_readdir(s, node, low32(size), offset, &mut out[..n]);
    written(a.code, a.written, out);
}

fn save(s: &[u8], out: &mut [u8]) {
    let a = state::galdovar_save_to_bytes(s, out);
    written(a.code, a.written, out);
}

// A call by its letter, with its numbers, on the lent bytes, with its byte string, and into the lent output; nothing for a letter of no call.
pub fn call(letter: u8, r: [u64; 8], s: &mut [u8], bytes: &[u8], out: &mut [u8]) {
    match letter {
        b'n' => create(s, r),
        b'p' => code(instance::galdovar_set_remove_pseudo_root(s).code),
        b'm' => mount(s, bytes, r),
        b'r' => restore_mount(s, bytes, r),
        b'u' => umount(s, bytes),
        b'a' => code(state::galdovar_restore_from_bytes(s, bytes).code),
        b'q' => root(s, bytes),
        b'w' => walk(s, bytes),
        b't' => route(s, r[0]),
        b'l' => lookup(s, r[0], bytes),
        b'c' => convert(low8(r[0]), r[1]),
        b'o' => ids(s, r[0], r[1], 1),
        b'b' => ids(s, r[0], r[1], 0),
        b'k' => code(plain::galdovar_validate_path_component(bytes).code),
        b'i' => settings(s),
        b'd' => list(s, r, out),
        b's' => save(s, out),
        _ => {}
    }
}
