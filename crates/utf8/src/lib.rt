// UTF-8 as in the Unicode standard, table 3-7 (R35).
#![tactic(auto)]

ghost use Rattle.std.specs.Prelude.{◌≡◌, [], ◌∷◌, ◌-◌, ◌≤◌, length, drop, replicate};
ghost use Rattle.std.specs.Bool.{then_some};
ghost use Rattle.utf8.specs.Plain.{plain_long};
ghost use Rattle.utf8.specs.Sequence.{sequence_in};
ghost use Rattle.rules.specs.Utf8.{◌‥◌, fits, valid_to, well_formed};

use scan::bytes::any_byte;

// Whether the byte at `at` is there and lies between low and high.
fn is_in(s: &[u8], at: usize, low: u8, high: u8) -> bool
    ensures { result ≡ fits (low ‥ high ∷ []) (drop at s.now) }
{
    s.get(at).is_some_and(|b| low <= *b && *b <= high)
}

// The length of a sequence of N bytes, where the second lies between low and high and those behind it are tail bytes.
#[inline(always)]
fn tailed<const N: usize>(s: &[u8], at: usize, low: u8, high: u8) -> Option<usize>
    requires two_or_more { 2 ≤ N }
    requires four_or_less { N ≤ 4 }
    requires at_in_bounds { at ≤ length s.now }
    ensures { result ≡ then_some (fits (low ‥ high ∷ replicate (N - 2) (0x80 ‥ 0xBF)) (drop at s.now)) N }
{
    if s.len() - at < N - 1 {
        return None;
    }
    let whole = is_in(s, at, low, high) && (1..N - 1).all(|k| is_in(s, at + k, 0x80, 0xBF));
    whole.then_some(N)
}

// The length of the well-formed sequence that starts at `at`, where one does. The rows with the most letters are tested first.
fn sequence_at(s: &[u8], at: usize) -> Option<usize>
    ensures { result ≡ sequence_in (drop at s.now) }
{
    let b = *s.get(at)?;
    let next = at + 1;
    if b < 0x80 {
        return Some(1);
    }
    if 0xC2 <= b && b < 0xE0 {
        return tailed::<2>(s, next, 0x80, 0xBF);
    }
    if 0xE1 <= b && b < 0xED {
        return tailed::<3>(s, next, 0x80, 0xBF);
    }
    if b < 0xE0 {
        return None;
    }
    if b < 0xE1 {
        return tailed::<3>(s, next, 0xA0, 0xBF);
    }
    if b < 0xEE {
        return tailed::<3>(s, next, 0x80, 0x9F);
    }
    if b < 0xF0 {
        return tailed::<3>(s, next, 0x80, 0xBF);
    }
    if b < 0xF1 {
        return tailed::<4>(s, next, 0x90, 0xBF);
    }
    if b < 0xF4 {
        return tailed::<4>(s, next, 0x80, 0xBF);
    }
    if b < 0xF5 {
        return tailed::<4>(s, next, 0x80, 0x8F);
    }
    None
}

// Where the well-formed part of the bytes ends (R35).
pub fn valid_to(s: &[u8]) -> usize
    ensures { result ≡ valid_to s.now }
{
    let mut at = 0;
    while let Some(n) = sequence_at(s, at) {
        at += n;
    }
    at
}

// Whether there are eight bytes or more, each of them 1 to 127: then they are well formed, none is 0, and they are no dots (R57, R58).
pub fn is_plain(s: &[u8]) -> bool
    ensures { result ≡ plain_long s.now }
{
    8 <= s.len() && !any_byte(s, |b| b == 0 || 127 < b)
}

// Whether all of the bytes are well formed (R35, R36).
pub fn is_utf8(s: &[u8]) -> bool
    ensures { result ≡ well_formed s.now }
{
    is_plain(s) || valid_to(s) == s.len()
}
