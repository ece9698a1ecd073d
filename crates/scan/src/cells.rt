// Cells of eight bytes in a row, read under a mask: the first that is a number sought.
ghost use Rattle.std.specs.Prelude.{◌≡◌, ◌+◌, ◌-◌, ◌*◌, ◌≤◌, length};
ghost use Rattle.scan.specs.First.{cell_is, any_of, first_place};

// Whether one of the eight cells from cell i on is x under the mask: all eight are looked at, with no way out between, so that a compiler may compare them side by side.
fn any_of_eight(s: &[u8], at: usize, i: usize, mask: u64, x: u64) -> bool
    requires { at + 8 * (i + 8) ≤ length s.now }
    ensures { result ≡ any_of (cell_is s.now at mask x) i 8 }
{
    let mut hit = false;
    let mut k = 0;
    while k < 8 {
        if le::fields::get_u64(s, at + 8 * (i + k)) & mask == x {
            hit = true;
        }
        k += 1;
    }
    hit
}

// The first cell from `from` on that is x under the mask, one by one.
fn find_by_one(s: &[u8], at: usize, from: usize, n: usize, mask: u64, x: u64) -> Option<usize>
    requires n_in_bounds { at + 8 * n ≤ length s.now }
    requires from_le_n { from ≤ n }
    ensures { result ≡ first_place (cell_is s.now at mask x) from (n - from) }
{
    for i in from..n {
        if le::fields::get_u64(s, at + 8 * i) & mask == x {
            return Some(i);
        }
    }
    None
}

// The first cell from `from` on that is x under the mask, eight at a time.
fn find_by_eight(s: &[u8], at: usize, from: usize, n: usize, mask: u64, x: u64) -> Option<usize>
    requires n_in_bounds { at + 8 * n ≤ length s.now }
    requires from_le_n { from ≤ n }
    ensures { result ≡ first_place (cell_is s.now at mask x) from (n - from) }
{
    let mut i = from;
    while 8 <= n - i {
        if any_of_eight(s, at, i, mask, x) {
            break;
        }
        i += 8;
    }
    find_by_one(s, at, i, n, mask, x)
}

// The mask under which a cell is compared whole.
pub const ALL: u64 = u64::MAX;

// The first cell from `from` on that is x under the mask (R45, R53). The eight at `from` are asked one by one: in a short table, and where many fit, the first is near. Where the mask is of all bits, the cells are compared without it.
pub fn find_cell(s: &[u8], at: usize, from: usize, n: usize, mask: u64, x: u64) -> Option<usize>
    requires n_in_bounds { at + 8 * n ≤ length s.now }
    requires from_le_n { from ≤ n }
    ensures { result ≡ first_place (cell_is s.now at mask x) from (n - from) }
{
    if n - from < 8 {
        return find_by_one(s, at, from, n, mask, x);
    }
    let near = from + 8;
    if let Some(i) = find_by_one(s, at, from, near, mask, x) {
        return Some(i);
    }
    if mask == ALL {
        return find_by_eight(s, at, near, n, ALL, x);
    }
    find_by_eight(s, at, near, n, mask, x)
}
