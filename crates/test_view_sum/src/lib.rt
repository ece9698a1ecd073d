// The sum of the tables that lent bytes stand for, by the page of the layout (docs/LAYOUT.md).
#![tactic(auto)]

ghost use Rattle.std.specs.Prelude.{◌≡◌};
ghost use Rattle.path.specs.Steps.{part};
ghost use Rattle.test_words.specs.Adler.{adler};
ghost use Rattle.test_view_sum.specs.Viewed.{flag_of, mount_bytes, slot_bytes, name_bytes, row_bytes, viewed_pieces, table_bytes};

use test_words::hex::byte_at;
use test_words::sums::{START, with_run};

// Where the node table begins.
const TABLE: usize = 8192;

// The sum of the tables.
pub fn sum_of(s: &[u8]) -> u64
    ensures { result ≡ adler 1 (table_bytes s.now) }
{
    let a = run(START, s, 8, 74);
    let b = flag(a, byte_at(s, 82));
    let c = flag(b, byte_at(s, 83));
    let d = mount(c, s, byte_at(s, 95), 88, 96, 100, 104);
    let e = (0..256).fold(d, |x, k| slot(x, s, k));
    let size = u16::from_le_bytes([byte_at(s, 8), byte_at(s, 9)]);
    let count = u16::from_le_bytes([byte_at(s, 16), byte_at(s, 17)]);
    (0..count).fold(e, |x, i| row(x, s, size, i))
}

// With so many bytes from a place on.
fn run(sum: u64, s: &[u8], at: usize, n: usize) -> u64
    ensures { result ≡ adler sum (part s.now at n) }
{
    let from = at.min(s.len());
    let end = from + n.min(s.len() - from);
    with_run(sum, &s[from..end])
}

// With a byte as 0 or 1.
fn flag(sum: u64, b: u8) -> u64
    ensures { result ≡ adler sum (flag_of b) }
{
    with_run(sum, &[(b != 0) as u8])
}

// With a mount, by its index.
fn mount(sum: u64, s: &[u8], index: u8, cell: usize, uid: usize, gid: usize, mode: usize) -> u64
    ensures { result ≡ adler sum (mount_bytes s.now index cell uid gid mode) }
{
    let a = flag(sum, index);
    if index == 0 {
        return a;
    }
    let b = run(a, s, cell, 8);
    let c = run(b, s, uid, 4);
    let d = run(c, s, gid, 4);
    run(d, s, mode, 4)
}

// With a slot.
fn slot(sum: u64, s: &[u8], k: u16) -> u64
    ensures { result ≡ adler sum (slot_bytes s.now k) }
{
    let held = byte_at(s, 256 + k as usize);
    let a = flag(sum, held);
    if held == 0 {
        return a;
    }
    run(a, s, 512 + 4 * k as usize, 4)
}

// With a name of so many bytes.
fn name(sum: u64, s: &[u8], len: usize, cell: usize, last: usize, front: usize) -> u64
    ensures { result ≡ adler sum (name_bytes s.now len cell last front) }
{
    let a = run(sum, s, cell, 1);
    if len <= 7 {
        return run(a, s, last, len);
    }
    let b = run(a, s, front, len - 7);
    run(b, s, last, 7)
}

// With a row by its place in a table of so many.
fn row(sum: u64, s: &[u8], size: u16, place: u16) -> u64
    ensures { result ≡ adler sum (row_bytes s.now size place) }
{
    let n = size as usize;
    let i = place as usize;
    let a = run(sum, s, TABLE + 8 * i, 7);
    let b = run(a, s, TABLE + 8 * n + 8 * i, 7);
    let cell = TABLE + 16 * n + 8 * i;
    let uid = TABLE + 32 * n + 4 * i;
    let gid = TABLE + 36 * n + 4 * i;
    let c = mount(
        b,
        s,
        byte_at(s, cell + 7),
        cell,
        uid,
        gid,
        TABLE + 40 * n + 4 * i,
    );
    let at = TABLE + 24 * n + 8 * i;
    let len = byte_at(s, at) as usize;
    name(c, s, len, at, at + 1, TABLE + 44 * n + 248 * i)
}
