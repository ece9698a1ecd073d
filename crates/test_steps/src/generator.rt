// The generator of a script's numbers.
ghost use Rattle.std.specs.Prelude.{◌≡◌};
ghost use Rattle.test_steps.specs.Drawn.{next};

// The next number of the generator, below 2^32.
pub fn following(x: u64) -> u64
    ensures { result ≡ next x }
{
    (x % 4294967296 * 1664525 + 1013904223) % 4294967296
}
