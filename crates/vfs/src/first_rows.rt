// The tests that mount and restored mount make first.
ghost use Rattle.std.specs.Prelude.{◌≡◌};
ghost use Rattle.vfs.specs.FirstRows.{first_check};

use rules::codes::{VfsError, VfsResult};

// SMALL, then rows 1 and 2: TOOLONG, and INVAL for a path that is not UTF-8 (R19, R69, R91).
#[tactic(auto, unfolding(crate::specs::FirstRows::first_check, rules::specs::Outcome::first_of))]
pub fn check_first(s: &[u8], path: &[u8]) -> VfsResult<()>
    ensures { result ≡ first_check s.now path.now }
{
    storage::check_laid(s)?;
    if path::limits::is_too_long(path) {
        return Err(VfsError::TooLong);
    }
    if !utf8::is_utf8(path) {
        return Err(VfsError::Inval);
    }
    Ok(())
}
