// Bytes in a row at a place of a slice: compared, copied in, moved down, filled.
ghost use Rattle.std.specs.Prelude.{◌≡◌, ◌+◌, ◌≤◌, ◌<◌, length, replicate};
ghost use Rattle.le.specs.Mem.{read, write, same};

// Whether `len` bytes of a at p and of b at q are equal, a byte at a time.
fn same_bytes(a: &[u8], p: usize, b: &[u8], q: usize, len: usize) -> bool
    requires len_in_bounds { p + len ≤ length a.now }
    requires len_in_bounds_2 { q + len ≤ length b.now }
    ensures { result ≡ same (read a.now p len) (read b.now q len) }
{
    for i in 0..len {
        if a[p + i] != b[q + i] {
            return false;
        }
    }
    true
}

// Of fewer than eight: the first four at once and the last four, which may lap over them.
fn same_short(a: &[u8], p: usize, b: &[u8], q: usize, len: usize) -> bool
    requires len_in_bounds { p + len ≤ length a.now }
    requires len_in_bounds_2 { q + len ≤ length b.now }
    requires lt_len { len < 8 }
    ensures { result ≡ same (read a.now p len) (read b.now q len) }
{
    if len < 4 {
        return same_bytes(a, p, b, q, len);
    }
    if crate::fields::get_u32(a, p) != crate::fields::get_u32(b, q) {
        return false;
    }
    let last = len - 4;
    crate::fields::get_u32(a, p + last) == crate::fields::get_u32(b, q + last)
}

// Of eight or more: eight at once from the start on, and the last eight, which may lap over them.
fn same_words(a: &[u8], p: usize, b: &[u8], q: usize, len: usize) -> bool
    requires len_in_bounds { p + len ≤ length a.now }
    requires len_in_bounds_2 { q + len ≤ length b.now }
    requires le_len { 8 ≤ len }
    ensures { result ≡ same (read a.now p len) (read b.now q len) }
{
    for i in 0..(len - 1) / 8 {
        if crate::fields::get_u64(a, p + 8 * i) != crate::fields::get_u64(b, q + 8 * i) {
            return false;
        }
    }
    let last = len - 8;
    crate::fields::get_u64(a, p + last) == crate::fields::get_u64(b, q + last)
}

// Whether `len` bytes of a at p and of b at q are equal (R45).
pub fn same_at(a: &[u8], p: usize, b: &[u8], q: usize, len: usize) -> bool
    requires len_in_bounds { p + len ≤ length a.now }
    requires len_in_bounds_2 { q + len ≤ length b.now }
    ensures { result ≡ same (read a.now p len) (read b.now q len) }
{
    if len < 8 {
        return same_short(a, p, b, q, len);
    }
    same_words(a, p, b, q, len)
}

// Copies `len` bytes of src at `from` into dst at a place (R48, R64, R120).
pub fn copy_run(dst: &mut [u8], at: usize, src: &[u8], from: usize, len: usize)
    requires len_in_bounds { at + len ≤ length dst.old }
    requires len_in_bounds_2 { from + len ≤ length src.now }
    ensures { dst.new ≡ write dst.old at (read src.now from len) }
{
    dst[at..at + len].copy_from_slice(&src[from..from + len]);
}

// Copies all of src into dst at a place (R31, R64).
pub fn copy_at(dst: &mut [u8], at: usize, src: &[u8])
    requires { at + length src.now ≤ length dst.old }
    ensures { dst.new ≡ write dst.old at src.now }
{
    dst[at..at + src.len()].copy_from_slice(src);
}

// Moves `len` bytes down to a place, in their order (R44), from `by` bytes above it.
pub fn shift_down(s: &mut [u8], to: usize, by: usize, len: usize)
    requires { to + by + len ≤ length s.old }
    ensures { s.new ≡ write s.old to (read s.old (to + by) len) }
{
    let from = to + by;
    for i in 0..len {
        s[to + i] = s[from + i];
    }
}

// Writes one byte `len` times at a place (R64).
pub fn fill_at(dst: &mut [u8], at: usize, len: usize, v: u8)
    requires { at + len ≤ length dst.old }
    ensures { dst.new ≡ write dst.old at (replicate len v) }
{
    dst[at..at + len].fill(v);
}
