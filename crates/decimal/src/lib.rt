// Numbers as decimal text: read with a limit, and written by a writer into a lent slice.
#![tactic(auto)]

ghost use Rattle.std.specs.Prelude.{◌≡◌};
ghost use Rattle.decimal.specs.Read.{number_to, more};

pub mod inner;

// The number with one more digit behind it, where the byte is a digit and the sum is at most max.
fn one_more(max: u64, n: u64, b: u8) -> Option<u64>
    ensures { result ≡ more max n b }
{
    if !b.is_ascii_digit() {
        return None;
    }
    let v = n.checked_mul(10)?.checked_add((b - b'0') as u64)?;
    (v <= max).then_some(v)
}

// The number that the bytes spell, judged by its value, where they are one or more digits and it is at most max (R148, R149).
pub fn read(s: &[u8], max: u64) -> Option<u64>
    ensures { result ≡ number_to max s.now }
{
    if s.is_empty() {
        return None;
    }
    let mut n = 0;
    for b in s {
        n = one_more(max, n, *b)?;
    }
    Some(n)
}
