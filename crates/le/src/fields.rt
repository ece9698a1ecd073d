// Little-endian numbers of one, two, four and eight bytes at a place of a slice (R167).
ghost use Rattle.std.specs.Prelude.{◌≡◌, ◌+◌, ◌≤◌, length};
ghost use Rattle.le.specs.Mem.{read, get, put};

// The N bytes at a place.
fn bytes_at<const N: usize>(s: &[u8], at: usize) -> [u8; N]
    requires { at + N ≤ length s.now }
    ensures { result ≡ read s.now at N }
{
    <[u8; N]>::try_from(&s[at..at + N]).unwrap()
}

// The byte at a place (R167).
pub fn get_u8(s: &[u8], at: usize) -> u8
    requires { at + 1 ≤ length s.now }
    ensures { result ≡ get 1 s.now at }
{
    s[at]
}

// The number of two bytes at a place (R167).
pub fn get_u16(s: &[u8], at: usize) -> u16
    requires { at + 2 ≤ length s.now }
    ensures { result ≡ get 2 s.now at }
{
    u16::from_le_bytes(bytes_at(s, at))
}

// The number of four bytes at a place (R167).
pub fn get_u32(s: &[u8], at: usize) -> u32
    requires { at + 4 ≤ length s.now }
    ensures { result ≡ get 4 s.now at }
{
    u32::from_le_bytes(bytes_at(s, at))
}

// The number of eight bytes at a place (R167).
pub fn get_u64(s: &[u8], at: usize) -> u64
    requires { at + 8 ≤ length s.now }
    ensures { result ≡ get 8 s.now at }
{
    u64::from_le_bytes(bytes_at(s, at))
}

// Writes a byte at a place (R167).
pub fn put_u8(s: &mut [u8], at: usize, v: u8)
    requires { at + 1 ≤ length s.old }
    ensures { s.new ≡ put 1 s.old at v }
{
    s[at] = v;
}

// Writes a number of two bytes at a place (R167).
pub fn put_u16(s: &mut [u8], at: usize, v: u16)
    requires { at + 2 ≤ length s.old }
    ensures { s.new ≡ put 2 s.old at v }
{
    crate::runs::copy_at(s, at, &u16::to_le_bytes(v));
}

// Writes a number of four bytes at a place (R167).
pub fn put_u32(s: &mut [u8], at: usize, v: u32)
    requires { at + 4 ≤ length s.old }
    ensures { s.new ≡ put 4 s.old at v }
{
    crate::runs::copy_at(s, at, &u32::to_le_bytes(v));
}

// Writes a number of eight bytes at a place (R167).
pub fn put_u64(s: &mut [u8], at: usize, v: u64)
    requires { at + 8 ≤ length s.old }
    ensures { s.new ≡ put 8 s.old at v }
{
    crate::runs::copy_at(s, at, &u64::to_le_bytes(v));
}
