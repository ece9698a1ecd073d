// The record writer of listings: a record is laid whole at the start of the lent bytes, or not at all.
#![tactic(auto)]

ghost use Rattle.std.specs.Prelude.{[], ◌∷◌, length};
ghost use Rattle.rules.specs.Listing.{dirent};
ghost use Rattle.dirent.specs.Lays.{Lays};

use inner::FRONT;

pub mod inner;

// One more than the largest number of four bytes, in which the name length stands (R64).
const TWO_32: usize = 4294967296;

// Lays a directory entry at the start of the lent bytes: its length, or 0 and all as it was where it does not fit. The whole
// length is tested, then come the fixed part, the name and the zeros (R64, R65).
pub fn write_dirent(out: &mut [u8], ino: u64, off: u64, name: &[u8]) -> usize
    ensures { Lays out.old (length out.old) (dirent ino off name.now ∷ []) result out.new }
{
    let end = FRONT + name.len();
    let size = inner::whole(FRONT, name.len());
    if out.len() < size {
        return 0;
    }
    inner::put_front(out, 0, ino, off, (name.len() % TWO_32) as u32);
    le::runs::copy_at(out, FRONT, name);
    le::runs::fill_at(out, end, size - end, 0);
    size
}
