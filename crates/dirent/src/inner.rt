// The parts of an entry, each laid at a place that has room: its fixed part, and the name with its zeros, by its length; and entries laid of them.
ghost use Rattle.std.specs.Prelude.{◌≡◌, [], ◌∷◌, ◌++◌, ◌+◌, ◌-◌, ◌*◌, ◌/◌, ◌^◌, ◌≤◌, ◌<◌, length};
ghost use Rattle.rules.specs.Fields.{bytes_of, fields};
ghost use Rattle.rules.specs.Listing.{dirent_row, dirent};
ghost use Rattle.le.specs.Mem.{read, write};
ghost use Rattle.dirent.specs.Lays.{Lays, name_field, whole_length};

// The bytes of an entry in front of its name: number, offset, name length, type (R64).
pub const FRONT: usize = 24;

// The length of an entry whose name has 1 to 7 bytes (R64).
const SHORT: usize = 32;

// The length of a record whose name has `len` bytes, behind a fixed part whose length is a multiple of 8 (R64).
pub fn whole(front: usize, len: usize) -> usize
    requires { front + len + 7 < 2 ^ 64 }
    ensures { result ≡ whole_length front len }
{
    front + (len + 7) / 8 * 8
}

// Writes the fixed part of an entry at a place: number, offset, name length, type (R64).
pub fn put_front(out: &mut [u8], at: usize, ino: u64, off: u64, len: u32)
    requires { at + 24 ≤ length out.old }
    ensures { out.new ≡ write out.old at (fields dirent_row (ino ∷ off ∷ len ∷ 0 ∷ [])) }
{
    le::fields::put_u64(out, at, ino);
    le::fields::put_u64(out, at + 8, off);
    le::fields::put_u32(out, at + 16, len);
    le::fields::put_u32(out, at + 20, 0);
}

// Lays a name and its zeros at a place, where the name is the lowest `len` bytes of a word, 1 to 7 of them: both are written as
// one number (R64).
pub fn put_short(out: &mut [u8], at: usize, len: u64, word: u64)
    requires le_len { 1 ≤ len }
    requires len_bound { len ≤ 7 }
    requires at_in_bounds { at + 8 ≤ length out.old }
    ensures { out.new ≡ write out.old at (name_field (bytes_of len word)) }
{
    le::fields::put_u64(out, at, word % (1 << (8 * len)));
}

// Copies n words of src at `from` into dst at a place, the first of them outside the loop: most names have no other.
fn copy_words(dst: &mut [u8], at: usize, src: &[u8], from: usize, n: usize)
    requires le_n { 1 ≤ n }
    requires n_in_bounds { at + 8 * n ≤ length dst.old }
    requires n_in_bounds_2 { from + 8 * n ≤ length src.now }
    ensures { dst.new ≡ write dst.old at (read src.now from (8 * n)) }
{
    le::fields::put_u64(dst, at, le::fields::get_u64(src, from));
    for i in 1..n {
        le::fields::put_u64(dst, at + 8 * i, le::fields::get_u64(src, from + 8 * i));
    }
}

// Lays a name and its zeros at a place, where the name has `len` bytes, 8 to 255 of them, in two parts: those of src at `from`, and the lowest
// seven bytes of `last`. The zeros are written first, then whole words of the first part, and at the end the last eight bytes (R64).
pub fn put_long(out: &mut [u8], at: usize, src: &[u8], from: usize, len: usize, last: u64)
    requires le_len { (8 ≤ len) × (len ≤ 255) × (last < 2 ^ 56) }
    requires len_in_bounds { from + len ≤ length src.now }
    requires len_in_bounds_2 { at + (len + 7) / 8 * 8 ≤ length out.old }
    ensures { out.new ≡ write out.old at (name_field (read src.now from (len - 7) ++ bytes_of 7 last)) }
{
    let end = at + (len + 7) / 8 * 8;
    le::fields::put_u64(out, end - 8, 0);
    copy_words(out, at, src, from, len / 8);
    let byte = le::fields::get_u8(src, from + (len - 8)) as u64;
    le::fields::put_u64(out, at + (len - 8), last * 256 + byte);
}

// Lays a directory entry as `write_dirent` does, where its name is the lowest `len` bytes of a word, 1 to 7 of them (R64, R65).
pub fn write_short(out: &mut [u8], ino: u64, off: u64, len: u64, word: u64) -> usize
    requires le_len { 1 ≤ len }
    requires len_bound { len ≤ 7 }
    ensures { Lays out.old (length out.old) (dirent ino off (bytes_of len word) ∷ []) result out.new }
{
    if out.len() < SHORT {
        return 0;
    }
    put_front(out, 0, ino, off, len as u32);
    put_short(out, FRONT, len, word);
    SHORT
}

// Lays a directory entry as `write_dirent` does, where its name has `len` bytes, 8 to 255 of them, in two parts: those of src at `from`, and the lowest
// seven bytes of `last` (R64, R65).
pub fn write_long(
    out: &mut [u8],
    ino: u64,
    off: u64,
    src: &[u8],
    from: usize,
    len: usize,
    last: u64,
) -> usize
    requires le_len { (8 ≤ len) × (len ≤ 255) × (last < 2 ^ 56) }
    requires len_in_bounds { from + len ≤ length src.now }
    ensures { Lays out.old (length out.old) (dirent ino off (read src.now from (len - 7) ++ bytes_of 7 last) ∷ []) result out.new }
{
    let size = whole(FRONT, len);
    if out.len() < size {
        return 0;
    }
    put_front(out, 0, ino, off, len as u32);
    put_long(out, FRONT, src, from, len, last);
    size
}
