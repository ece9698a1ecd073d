// Eight bytes of a slice looked at together, as the cells of `scan`.
ghost use Rattle.std.specs.Prelude.{◌≡◌, ◌==◌, ◌||◌, ◌+◌, ◌≤◌, false, fold, length, slice_range};

// Whether one of the eight bytes at a place is b (R37): all are looked at, with no way out between, so that a compiler may compare them side by side.
pub fn any_byte(s: &[u8], at: usize, b: u8) -> bool
    requires { at + 8 ≤ length s.now }
    ensures { result ≡ fold (λ hit x. hit || x == b) false (slice_range s.now at (at + 8)) }
{
    s[at..at + 8].iter().fold(false, |hit, x| hit | (*x == b))
}
