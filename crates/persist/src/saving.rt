// Save: the state of an instance written into lent bytes, in the house layout.
ghost use Rattle.persist.specs.Saving.{Saves};

use rules::codes::{VfsError, VfsResult};
use saved_parts::places::{OPTIONS, TAIL};
use saved_parts::trailer::put_trailer;
use saved_rows::{put_options, put_records, records_size};

// Saves the instance at the start of the lent bytes: SMALL where the storage is against the layout rule or these are too few, else how many were written
// (R19, R119 to R127).
pub fn save_to_bytes(s: &[u8], out: &mut [u8]) -> VfsResult<usize>
    ensures { Saves s.now out.old result out.new }
{
    storage::check_laid(s)?;
    let end = records_size(s);
    if out.len() < end + TAIL {
        return Err(VfsError::Small);
    }
    let count = tables::header::count(s);
    let next = tables::header::next(s);
    let counter = tables::header::counter(s);
    put_records(s, out);
    put_options(s, out, end);
    put_trailer(out, end + OPTIONS, end as u32, count as u32, next, counter);
    Ok(end + TAIL)
}
