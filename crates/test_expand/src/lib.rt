// A line with the numbers of cells in place of their names, `$a` to `$h`.
#![tactic(auto)]

ghost use Rattle.std.specs.Prelude.{◌≡◌, [], ◌∷◌, length, get_or, take};
ghost use Rattle.rules.specs.Session.{decimal};
ghost use Rattle.decimal.specs.Wrote.{Wrote};
ghost use Rattle.test_expand.specs.Cells.{cell_named, expanded_by};

use decimal::inner::Text;

// How many cells a program has, `$a` to `$h` in a line.
pub const CELLS: usize = 8;

// The cell that a `$` and a letter at the front name.
#[tactic(auto, using(crate::proofs::Expanding::short_names_none, crate::proofs::Expanding::letter_names, crate::proofs::Expanding::other_names_none))]
fn named(s: &[u8]) -> Option<u8>
    ensures { result ≡ cell_named s.now }
{
    match s {
        [b'$', letter @ b'a'..=b'h', ..] => Some(*letter - b'a'),
        _ => None,
    }
}

// The number in a cell, or 0 where there is no such cell.
fn number_at(cells: &[u64], k: u8) -> u64
    ensures { result ≡ get_or cells.now k 0 }
{
    cells.get(k as usize).copied().unwrap_or(0)
}

// Writes the bytes of s at the front, as many as there is room for, and answers how many.
fn put_run(out: &mut [u8], s: &[u8]) -> usize
    ensures { Wrote out.old 0 (length out.old) (take (length out.old) s.now) result out.new }
{
    let n = s.len().min(out.len());
    out[..n].copy_from_slice(&s[..n]);
    n
}

// Writes one byte at the front, where there is room for it, and answers how many.
fn put_byte(out: &mut [u8], b: u8) -> usize
    ensures { Wrote out.old 0 (length out.old) (take (length out.old) (b ∷ [])) result out.new }
{
    if out.is_empty() {
        return 0;
    }
    out[0] = b;
    1
}

// Writes a number as a decimal at the front, as much of it as there is room for, and answers how many bytes (R152).
#[tactic(auto, using(decimal::proofs::Texts::length_decimal))]
fn put_number(out: &mut [u8], v: u64) -> usize
    ensures { Wrote out.old 0 (length out.old) (take (length out.old) (decimal v)) result out.new }
{
    let mut text = Text {
        out: &mut [0; 20],
        at: 0,
    };
    text.put_decimal(v);
    let Text { out: digits, at } = text;
    put_run(out, &digits[..at])
}

// Writes the line, each `$` and a letter from `a` to `h` as the decimal of that cell, as many bytes as there is room for, and answers how many (R152).
pub fn expanded(line: &[u8], cells: &[u64], out: &mut [u8]) -> usize
    ensures { Wrote out.old 0 (length out.old) (take (length out.old) (expanded_by cells.now line.now)) result out.new }
{
    let mut n = 0;
    let mut rest = line;
    while let [first, others @ ..] = rest {
        let room = &mut out[n..];
        let (len, behind) = match named(rest) {
            Some(k) => (put_number(room, number_at(cells, k)), &rest[2..]),
            None => (put_byte(room, *first), others),
        };
        n += len;
        rest = behind;
    }
    n
}
