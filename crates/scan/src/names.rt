// What is sought in the cells of names: the length and the last seven bytes as one number, and the mask of the bytes that count.
ghost use Rattle.std.specs.Prelude.{◌≡◌, ◌+◌, ◌≤◌, length};
ghost use Rattle.le.specs.Mem.{get};
ghost use Rattle.scan.specs.Key.{ones, mask_of, word_of};

// The cell of a name under its mask.
#[derive(Clone, Copy)]
pub struct NameKey {
    pub mask: u64,
    pub word: u64,
}

// The mask of a cell's first k + 1 bytes (R45).
pub fn mask_of(k: usize) -> u64
    requires { k ≤ 7 }
    ensures { result ≡ ones (k + 1) }
{
    crate::cells::ALL >> (56 - 8 * k)
}

// The bytes of a short name as one number.
fn short_word(name: &[u8]) -> u64
    requires { length name.now ≤ 7 }
    ensures { result ≡ get (length name.now) name.now 0 }
{
    let mut v: u64 = 0;
    let mut i = name.len();
    while 0 < i {
        i -= 1;
        v = v * 256 + le::fields::get_u8(name, i) as u64;
    }
    v
}

// The mask and the number that the cell of a row with that name has (R45).
pub fn key_of(name: &[u8]) -> NameKey
    ensures { (result.mask ≡ mask_of name.now) × (result.word ≡ word_of name.now) }
{
    let len = name.len();
    let low = (len % 256) as u64;
    if 8 <= len {
        let last = le::fields::get_u64(name, len - 8) / 256;
        return NameKey {
            mask: mask_of(7),
            word: low + 256 * last,
        };
    }
    NameKey {
        mask: mask_of(len),
        word: low + 256 * short_word(name),
    }
}
