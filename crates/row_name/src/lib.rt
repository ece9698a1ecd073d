// The name of a row of the node table: how long it is, its two cells, and its bytes brought together where a caller wants them.
#![tactic(auto)]

ghost use Rattle.std.specs.Prelude.{◌≡◌, ◌+◌, ◌≤◌, ◌<◌, length};
ghost use Rattle.le.specs.Mem.{read, get, write};
ghost use Rattle.tables.specs.Layout.{capacity_of, count_of, last_at, first_at};
ghost use Rattle.tables.specs.View.{node_at};
ghost use Rattle.tables.specs.Laid.{Bounds};
ghost use Rattle.row_name.specs.Copied.{Copied};

// How many bytes the name of row i has (R10).
pub fn name_len(s: &[u8], i: usize) -> usize
    requires bounds { Bounds s.now }
    requires i_bound { i < count_of s.now }
    ensures { result ≡ length (node_at (capacity_of s.now) s.now i).name }
{
    let n = tables::header::capacity(s);
    le::fields::get_u8(s, tables::places::LASTS.at(n, i)) as usize
}

// The cell of the name of row i as one number: the lowest byte is its length, and those above are its last seven bytes (R10).
pub fn name_cell(s: &[u8], i: usize) -> u64
    requires bounds { Bounds s.now }
    requires i_bound { i < count_of s.now }
    ensures { result ≡ get 8 s.now (last_at (capacity_of s.now) i) }
{
    let n = tables::header::capacity(s);
    le::fields::get_u64(s, tables::places::LASTS.at(n, i))
}

// Where the bytes before the last seven of the name of row i stand (R10).
pub fn first_at(s: &[u8], i: usize) -> usize
    requires bounds { Bounds s.now }
    requires i_bound { i < count_of s.now }
    ensures { result ≡ first_at (capacity_of s.now) i }
{
    let n = tables::header::capacity(s);
    tables::places::FIRSTS.at(n, i)
}

// Copies `len` bytes of src at `from` into dst at a place, one by one: for a few a call of memmove takes longer (R120).
fn copy_few(dst: &mut [u8], at: usize, src: &[u8], from: usize, len: usize)
    requires len_in_bounds { at + len ≤ length dst.old }
    requires len_in_bounds_2 { from + len ≤ length src.now }
    ensures { dst.new ≡ write dst.old at (read src.now from len) }
{
    for i in 0..len {
        dst[at + i] = src[from + i];
    }
}

// Copies `len` bytes of src at `from` into dst at a place, eight of them as one number (R120).
fn copy_front(dst: &mut [u8], at: usize, src: &[u8], from: usize, len: usize)
    requires len_in_bounds { at + len ≤ length dst.old }
    requires len_in_bounds_2 { from + len ≤ length src.now }
    ensures { dst.new ≡ write dst.old at (read src.now from len) }
{
    if len == 8 {
        le::fields::put_u64(dst, at, le::fields::get_u64(src, from));
    } else {
        le::runs::copy_run(dst, at, src, from, len);
    }
}

// Copies the name of row i into the lent bytes at a place: its length. Its last seven bytes stand apart from those before them, of which
// eight are copied at least: what is too much is written over (R120).
pub fn copy_name(s: &[u8], i: usize, out: &mut [u8], to: usize) -> usize
    requires bounds { Bounds s.now }
    requires i_bound { i < count_of s.now }
    requires i_in_bounds { to + length (node_at (capacity_of s.now) s.now i).name ≤ length out.old }
    ensures { Copied (node_at (capacity_of s.now) s.now i).name out.old to result out.new }
{
    let len = name_len(s, i);
    let at = tables::places::LASTS.at(tables::header::capacity(s), i);
    if len <= 7 {
        copy_few(out, to, s, at + 1, len);
        return len;
    }
    copy_front(out, to, s, first_at(s, i), (len - 7).max(8));
    le::runs::copy_run(out, to + (len - 7), s, at + 1, 7);
    len
}
