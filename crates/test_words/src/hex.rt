// Bytes of a line, as they stand and as pairs of hex digits, alone or behind a `%`.
ghost use Rattle.std.specs.Prelude.{◌≡◌, length, get_or, take, drop};
ghost use Rattle.decimal.specs.Wrote.{Wrote};
ghost use Rattle.test_words.specs.Spelt.{hex_digit, hex_pair, hex_bytes, percent_front, percent_bytes};

// The byte at a place, or 0 past the end.
pub fn byte_at(s: &[u8], at: usize) -> u8
    ensures { result ≡ get_or s.now at 0 }
{
    s.get(at).copied().unwrap_or(0)
}

// The value of a hex digit.
#[tactic(auto, using(std::proofs::lemmas::Bool::Decides::nat_tests), unfolding(crate::specs::Spelt::hex_digit, rules::specs::Session::is_digit))]
fn digit(b: u8) -> Option<u8>
    ensures { result ≡ hex_digit b }
{
    match b {
        b'0'..=b'9' => Some(b - b'0'),
        b'a'..=b'f' => Some(b - b'a' + 10),
        _ => None,
    }
}

// The byte that two hex digits spell.
#[tactic(auto, using(crate::proofs::Spelling::digit_less, crate::proofs::Spelling::pair_is, crate::proofs::Spelling::pair_first, crate::proofs::Spelling::pair_second))]
fn pair(a: u8, b: u8) -> Option<u8>
    ensures { result ≡ hex_pair a b }
{
    Some(digit(a)? * 16 + digit(b)?)
}

// Writes the bytes that the pairs of digits from `at` on spell, as many as there is room for, and answers how many.
pub fn pairs(s: &[u8], at: usize, out: &mut [u8]) -> usize
    ensures { Wrote out.old 0 (length out.old) (take (length out.old) (hex_bytes (drop at s.now))) result out.new }
{
    let mut n = 0;
    let mut rest = s.get(at..).unwrap_or(&[]);
    while n < out.len() {
        let [a, b, next @ ..] = rest else {
            return n;
        };
        let Some(byte) = pair(*a, *b) else {
            return n;
        };
        out[n] = byte;
        n += 1;
        rest = next;
    }
    n
}

// The byte that a `%` and two hex digits at the front spell.
#[tactic(auto, using(crate::proofs::Spelling::front_short, crate::proofs::Spelling::front_pair, crate::proofs::Spelling::front_other))]
fn escaped(w: &[u8]) -> Option<u8>
    ensures { result ≡ percent_front w.now }
{
    match w {
        [b'%', b, c, ..] => pair(*b, *c),
        _ => None,
    }
}

// Writes the bytes of w, each `%` and two hex digits as the byte that they spell, as many as there is room for, and answers how many.
pub fn decoded(w: &[u8], out: &mut [u8]) -> usize
    ensures { Wrote out.old 0 (length out.old) (take (length out.old) (percent_bytes w.now)) result out.new }
{
    let mut n = 0;
    let mut rest = w;
    while n < out.len() {
        let [first, others @ ..] = rest else {
            return n;
        };
        let (byte, behind) = match escaped(rest) {
            Some(byte) => (byte, &rest[3..]),
            None => (*first, others),
        };
        out[n] = byte;
        n += 1;
        rest = behind;
    }
    n
}
