// State restore: saved bytes that are accepted become the state of a fresh instance.
ghost use Rattle.persist.specs.StateRestoring.{RestoresState};

use rules::codes::{VfsError, VfsResult};
use saved_restore::{has_unknown, is_fresh, is_too_many, put_saved};

// SMALL, NOTFRESH, BADSAVE, BADOPT, NOROOM, or the state of the bytes in place of the instance's own (R19, R128 to R134).
pub fn restore_from_bytes(s: &mut [u8], b: &[u8]) -> VfsResult<()>
    ensures { RestoresState s.old b.now result s.new }
{
    storage::check_laid(s)?;
    if !is_fresh(s) {
        return Err(VfsError::NotFresh);
    }
    if !saved::is_accepted(b) {
        return Err(VfsError::BadSave);
    }
    if has_unknown(s, b) {
        return Err(VfsError::BadOpt);
    }
    if is_too_many(s, b) {
        return Err(VfsError::NoRoom);
    }
    put_saved(s, b);
    Ok(())
}
