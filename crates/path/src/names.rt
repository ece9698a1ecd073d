// One name: `.`, `..`, a byte in it, and the component check.
ghost use Rattle.std.specs.Prelude.{◌≡◌};
ghost use Rattle.rules.specs.Bytes.{holds};
ghost use Rattle.rules.specs.Path.{is_dot, is_dots};
ghost use Rattle.rules.specs.Codes.{result_code};
ghost use Rattle.path.specs.Checks.{check_code};

use rules::codes::{VfsError, VfsResult};

// Whether the name is `.` (R37, R58, R61).
pub fn is_dot(name: &[u8]) -> bool
    ensures { result ≡ is_dot name.now }
{
    name == b".".as_slice()
}

// Whether the name is `..` (R37, R58, R61).
pub fn is_dots(name: &[u8]) -> bool
    ensures { result ≡ is_dots name.now }
{
    name == b"..".as_slice()
}

// Whether the byte stands in the name (R57, R61).
pub fn has_byte(name: &[u8], b: u8) -> bool
    ensures { result ≡ holds b name.now }
{
    name.contains(&b)
}

// The check of one component: `.`, `..`, a slash or a byte 0 is refused (R61, R62).
pub fn validate_path_component(name: &[u8]) -> VfsResult<()>
    ensures { result_code result ≡ check_code name.now }
{
    if is_dot(name) || is_dots(name) || has_byte(name, b'/') || has_byte(name, 0) {
        return Err(VfsError::Inval);
    }
    Ok(())
}
