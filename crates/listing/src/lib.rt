// The listing of a directory of the tree: records of its children into lent bytes, each behind the one before it.
#![tactic(auto)]

ghost use Rattle.std.specs.Prelude.{◌≡◌, [], ◌∷◌, ◌≤◌, ◌<◌, length, drop};
ghost use Rattle.rules.specs.Tree.{children_in};
ghost use Rattle.rules.specs.Listing.{dirent, dirents_from};
ghost use Rattle.tables.specs.Layout.{capacity_of, count_of};
ghost use Rattle.tables.specs.View.{node_at, nodes_of};
ghost use Rattle.tables.specs.Laid.{Bounds};
ghost use Rattle.dirent.specs.Lays.{Lays};
ghost use Rattle.listing.specs.Listed.{Lists};

use rules::codes::{VfsError, VfsResult};

// Lays the record of row i with that offset at the start of the lent bytes: its length, or 0 and all as it was where it does not fit. The last
// seven bytes of the name go over as a number (R64, R65).
fn lay_row(s: &[u8], i: usize, off: u64, out: &mut [u8]) -> usize
    requires bounds { Bounds s.now }
    requires i_bound { i < count_of s.now }
    ensures { Lays out.old (length out.old) (dirent (node_at (capacity_of s.now) s.now i).number off (node_at (capacity_of s.now) s.now i).name ∷ []) result out.new }
{
    let x = tables::rows::number(s, i);
    let cell = row_name::name_cell(s, i);
    let len = cell % 256;
    if len == 0 {
        return dirent::write_dirent(out, x, off, &s[..0]);
    }
    if len <= 7 {
        return dirent::inner::write_short(out, x, off, len, cell / 256);
    }
    let from = row_name::first_at(s, i);
    dirent::inner::write_long(out, x, off, s, from, len as usize, cell / 256)
}

// Lays the records of a node's children from a place on into the first `end` of the lent bytes, each into the rest that is unwritten: how many bytes (R65, R66).
fn lay_children(s: &[u8], x: u64, offset: u64, end: usize, out: &mut [u8]) -> usize
    requires bounds { Bounds s.now }
    requires end_in_bounds { end ≤ length out.old }
    ensures { Lays out.old end (dirents_from offset (drop offset (children_in (nodes_of s.now) x))) result out.new }
{
    let count = tables::header::count(s);
    let mut place: u64 = 0;
    let mut at = 0;
    for i in 0..count {
        if tables::rows::parent(s, i) == x {
            place += 1;
            if offset < place {
                let n = lay_row(s, i, place, &mut out[at..end]);
                if n == 0 {
                    return at;
                }
                at += n;
            }
        }
    }
    at
}

// Lists the children of a node from an offset on into the lent bytes, whole records within `size` only: SMALL, then size 0, then NOENT (R19, R60, R63 to R66).
pub fn readdir(
    s: &[u8],
    node: inode::NodeNumber,
    size: u32,
    offset: u64,
    out: &mut [u8],
) -> VfsResult<usize>
    ensures { Lists s.now node.0 size offset out.old result out.new }
{
    storage::check_laid(s)?;
    if size == 0 {
        return Ok(0);
    }
    if !tables::rows::is_known(s, node.0) {
        return Err(VfsError::NoEnt);
    }
    let end = out.len().min(size as usize);
    Ok(lay_children(s, node.0, offset, end, out))
}
