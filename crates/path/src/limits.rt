// The limits of a mount path and of its parts (R40).
ghost use Rattle.std.specs.Prelude.{◌≡◌};
ghost use Rattle.rules.specs.Path.{too_long};

use crate::components::part_end;

// Whether the path has more than 4,096 bytes, or more than 255 between slashes (R40).
pub fn is_too_long(path: &[u8]) -> bool
    ensures { result ≡ too_long path.now }
{
    if rules::MAX_PATH < path.len() {
        return true;
    }
    let mut i = 0;
    while i < path.len() {
        let end = part_end(path, i, b'/');
        if rules::MAX_NAME < end - i {
            return true;
        }
        i = end + 1;
    }
    false
}
