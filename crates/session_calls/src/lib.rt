// The four lines that call: what each of them asks of the instance in lent bytes, and the text of its answer.
#![tactic(auto)]

ghost use Rattle.std.specs.Prelude.{Some};
ghost use Rattle.rules.specs.Session.{mount, umount, walk, look};
ghost use Rattle.decimal.specs.Text.{HasRoom, Appended};
ghost use Rattle.session_calls.specs.Answered.{line_text, Answered};

use decimal::inner::Text;
use inode::{BackendNumber, VfsInode};
use mount_parts::backend::Backend;
use session_text::{put_backend, put_looked, put_mounted, put_numbers, put_unmounted, put_walked};
use vfs_query::Routed;

// `mount PATH TAG ROOT MAX`, ids 0 and mode 16895 (R138).
pub fn mount_line(s: &mut [u8], path: &[u8], tag: u32, root: u64, largest: u64, text: &mut Text)
    requires { HasRoom text.old 64 }
    ensures { Answered s.old (Some (mount path.now tag root largest)) text.old text.new s.new }
{
    let b = Backend {
        tag,
        root: BackendNumber(root),
        largest,
        uid: 0,
        gid: 0,
        mode: rules::DIR_MODE,
    };
    put_mounted(text, vfs::mounting::mount(s, path, b));
}

// `umount PATH` (R139).
pub fn umount_line(s: &mut [u8], path: &[u8], text: &mut Text)
    requires { HasRoom text.old 64 }
    ensures { Answered s.old (Some (umount path.now)) text.old text.new s.new }
{
    put_unmounted(text, vfs::unmounting::umount(s, path));
}

// `walk PATH` (R140).
pub fn walk_line(s: &[u8], path: &[u8], text: &mut Text)
    requires { HasRoom text.old 64 }
    ensures { Appended text.old 45 (line_text s.now (Some (walk path.now))) text.new }
{
    put_walked(text, pseudo_fs::path_walk(s, path));
}

// `look NODE NAME`: routed first; to the tree it is looked up there, to a backend it is its tag and number (R141, R142, R143).
pub fn look_line(s: &[u8], node: u64, name: &[u8], text: &mut Text)
    requires { HasRoom text.old 64 }
    ensures { Appended text.old 45 (line_text s.now (Some (look node name.now))) text.new }
{
    match vfs_query::route(s, VfsInode(node)) {
        Ok(Routed::Tree(x)) => put_looked(text, vfs_query::lookup(s, x, name)),
        Ok(Routed::Backend { tag, ino, .. }) => put_backend(text, tag as u64, ino.0),
        Err(e) => put_numbers(text, e.code(), &[0]),
    }
}
