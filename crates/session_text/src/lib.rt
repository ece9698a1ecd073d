// The text of each answer, laid into the lent output by its writer.
#![tactic(auto)]

ghost use Rattle.std.specs.Prelude.{◌∷◌, [], ◌+◌, ◌*◌, ◌≤◌, ◌<◌, length};
ghost use Rattle.rules.specs.Bytes.{ascii};
ghost use Rattle.rules.specs.Session.{text_of};
ghost use Rattle.decimal.specs.Text.{HasRoom, Appended};
ghost use Rattle.pseudo_fs.specs.Told.{path_walk_told};
ghost use Rattle.vfs_query.specs.Told.{looked_told};
ghost use Rattle.mount_parts.specs.Mounting.{mounted_told};
ghost use Rattle.vfs.specs.Unmounting.{unmounted_told};
ghost use Rattle.session_text.specs.Texts.{spaced, values_text, count_text, backend_text};

use decimal::inner::Text;
use inode::NodeNumber;
use mount_parts::mounting::{MountRefused, Mounted};
use pseudo_fs::Entry;
use rules::codes::VfsResult;
use vfs::unmounting::Unmounted;

// `?`, for a line of no form (R145).
pub fn put_question(text: &mut Text)
    requires { HasRoom text.old 64 }
    ensures { Appended text.old 1 (ascii "?") text.new }
{
    text.put_byte(b'?');
}

// Each number with a space before it (R152).
fn put_spaced(text: &mut Text, numbers: &[u64])
    requires { HasRoom text.old (21 * length numbers.now) }
    ensures { Appended text.old (21 * length numbers.now) (spaced numbers.now) text.new }
{
    for n in numbers {
        text.put_byte(b' ');
        text.put_decimal(*n);
    }
}

// A code, and at most two numbers behind it (R152).
pub fn put_numbers(text: &mut Text, code: u32, numbers: &[u64])
    requires room { HasRoom text.old 64 }
    requires code_bound { code < 256 }
    requires few { length numbers.now ≤ 2 }
    ensures { Appended text.old (3 + 21 * length numbers.now) (text_of (code ∷ numbers.now)) text.new }
{
    text.put_decimal(code as u64);
    put_spaced(text, numbers);
}

// `r`, a tag and a number (R141, R143).
pub fn put_backend(text: &mut Text, tag: u64, number: u64)
    requires { HasRoom text.old 64 }
    ensures { Appended text.old 43 (backend_text tag number) text.new }
{
    text.put_byte(b'r');
    put_spaced(text, &[tag, number]);
}

// What a mount answers: code, index, count (R138, R144).
pub fn put_mounted(text: &mut Text, answer: Result<Mounted, MountRefused>)
    requires { HasRoom text.old 64 }
    ensures { Appended text.old 45 (count_text (mounted_told answer)) text.new }
{
    let a = flat_mounts::mounted(answer);
    put_numbers(text, a.code, &[a.fs_idx as u64, a.count as u64]);
}

// What an unmount answers: code, node, parent (R139, R144).
pub fn put_unmounted(text: &mut Text, answer: VfsResult<Unmounted>)
    requires { HasRoom text.old 64 }
    ensures { Appended text.old 45 (values_text 2 (unmounted_told answer)) text.new }
{
    let a = flat_mounts::unmounted(answer);
    put_numbers(text, a.code, &[a.node, a.parent]);
}

// What a walk answers: code, node, 0 for none (R140, R144).
pub fn put_walked(text: &mut Text, answer: VfsResult<Option<NodeNumber>>)
    requires { HasRoom text.old 64 }
    ensures { Appended text.old 24 (values_text 1 (path_walk_told answer)) text.new }
{
    let a = flat_queries::walked(answer);
    put_numbers(text, a.code, &[a.node]);
}

// What a lookup answers: code, full number (R141, R144).
pub fn put_looked(text: &mut Text, answer: VfsResult<Entry>)
    requires { HasRoom text.old 64 }
    ensures { Appended text.old 24 (values_text 1 (looked_told answer)) text.new }
{
    let a = flat_queries::looked(answer);
    put_numbers(text, a.code, &[a.inode]);
}
