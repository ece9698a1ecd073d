// Bytes asked eight together, whether a test holds at one of them.
ghost use Rattle.std.specs.Prelude.{◌≡◌, ℕ, Bool};
ghost use Rattle.std.specs.List.{list_any};
ghost use Rattle.scan.specs.Bytes.{Says};

// Whether the test holds at one of the bytes: all are asked, with no way out between, so that a compiler may ask them side by side.
fn any_together<F: Fn(u8) -> bool>(s: &[u8], test: &F) -> bool
    requires { F.IsAlwaysCallable test.now }
    ensures { (f : ℕ → Bool) → Says (F.post test.now) f → result ≡ list_any f s.now }
{
    s.iter().fold(false, |hit, b| hit | test(*b))
}

// Whether the test holds at one of the bytes (R35, R57, R61): eight are asked together, and the last eight whatever was passed before.
pub fn any_byte<F: Fn(u8) -> bool>(s: &[u8], test: F) -> bool
    requires { F.IsAlwaysCallable test }
    ensures { (f : ℕ → Bool) → Says (F.post test) f → result ≡ list_any f s.now }
{
    if s.len() < 8 {
        return s.iter().any(|b| test(*b));
    }
    let mut rest = s;
    while let Some((eight, tail)) = rest.split_at_checked(8) {
        if any_together(eight, &test) {
            return true;
        }
        rest = tail;
    }
    any_together(&s[s.len() - 8..], &test)
}
