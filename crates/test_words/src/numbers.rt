// Numbers: those of a line, and those that fit.
ghost use Rattle.std.specs.Prelude.{◌≡◌, min, length, replicate};
ghost use Rattle.std.specs.Iterator.{YieldsFirstRef, item_count};
ghost use Rattle.rules.specs.Session.{words, shown};
ghost use Rattle.test_words.specs.Among.{words_left, numbers_of, low_bits};

use path::components::part_end;

// The words that are left of a line, one after the other; none behind the last one (R146).
#[derive(Drop)]
struct Words<'a>(Option<&'a [u8]>);

impl<'a> Iterator for Words<'a> {
    type Item = &'a [u8];

    ghost next_gives = { YieldsFirstRef (λ w. words_left w.0) };

    ghost remaining = { item_count (λ w. words_left w.0) };

    fn next(&mut self) -> Option<&'a [u8]> {
        let s = self.0?;
        let end = part_end(s, 0, b' ');
        self.0 = s[end..].get(1..);
        Some(&s[..end])
    }
}

// The words of a line that are numbers of 64 bits, in their order; zeros behind them (R146, R148, R149).
pub fn numbers(line: &[u8]) -> [u64; 8]
    ensures { result ≡ shown 8 (numbers_of (words line.now)) }
{
    let values = Words(Some(line)).filter_map(|w| decimal::read(w, u64::MAX));
    let mut r = [0u64; 8];
    for (k, v) in values.take(8).enumerate() {
        r[k] = v;
    }
    r
}

// The low 32 bits.
pub fn low32(x: u64) -> u32
    ensures { result ≡ low_bits 32 x }
{
    (x % 4294967296) as u32
}

// The low 8 bits.
pub fn low8(x: u64) -> u8
    ensures { result ≡ low_bits 8 x }
{
    (x % 256) as u8
}

// A number, or a length where that is smaller.
pub fn least(n: u64, len: usize) -> usize
    ensures { result ≡ min n len }
{
    n.min(len as u64) as usize
}

// Room for the lines of a program, or for an instance of 1,024 nodes: zeros.
pub fn large() -> [u8; 851968]
    ensures { (result ≡ replicate 851968 0) × (851968 ≡ length result) }
{
    [0; 851968]
}
