// The lent bytes as a script sets them, at any place; what would stand past the end is left out.
ghost use Rattle.std.specs.Prelude.{◌≡◌, ◌+◌, get_or, take, replicate};
ghost use Rattle.le.specs.Mem.{write, put};
ghost use Rattle.test_steps.specs.Drawn.{drawn};
ghost use Rattle.test_steps.specs.Whole.{put_whole};

use le::fields::{put_u8, put_u64};
use test_words::hex::byte_at;
use test_words::numbers::{least, low8};

// One byte, so many times from a place on.
pub fn fill(s: &mut [u8], at: u64, n: u64, b: u8)
    ensures { s.new ≡ write s.old at (replicate n b) }
{
    let from = least(at, s.len());
    let count = least(n, s.len() - from);
    le::runs::fill_at(s, from, count, b);
}

// Bytes of the generator from a seed on, so many from a place on.
pub fn scatter(s: &mut [u8], at: u64, n: u64, seed: u64)
    ensures { s.new ≡ write s.old at (drawn n seed) }
{
    let from = least(at, s.len());
    let count = least(n, s.len() - from);
    let part = &mut s[from..from + count];
    let mut x = seed;
    for b in part {
        x = crate::generator::following(x);
        *b = low8(x / 65536);
    }
}

// The low byte of a number at a place.
pub fn put_byte(s: &mut [u8], at: u64, x: u64)
    ensures { s.new ≡ put 1 s.old at x }
{
    let from = least(at, s.len());
    if from < s.len() {
        put_u8(s, from, low8(x));
    }
}

// A number in eight bytes, the lowest first, at a place where eight are there.
pub fn put_word(s: &mut [u8], at: u64, x: u64)
    ensures { s.new ≡ put_whole 8 s.old at x }
{
    let from = least(at, s.len());
    if 8 <= s.len() - from {
        put_u64(s, from, x);
    }
}

// The byte at a place, raised by a number modulo 256.
pub fn raise(s: &mut [u8], at: u64, x: u64)
    ensures { s.new ≡ put 1 s.old at (get_or s.old at 0 + x) }
{
    let b = byte_at(s, least(at, s.len())) as u64;
    put_byte(s, at, b + x % 256);
}

// The first bytes of another slice, so many, at the front.
pub fn copy(to: &mut [u8], from: &[u8], n: u64)
    ensures { to.new ≡ write to.old 0 (take n from.now) }
{
    let count = least(least(n, to.len()) as u64, from.len());
    le::runs::copy_run(to, 0, from, 0, count);
}
