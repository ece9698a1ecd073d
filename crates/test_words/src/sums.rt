// Sums of bytes by Adler-32, as RFC 1950 has it.
ghost use Rattle.std.specs.Prelude.{◌≡◌};
ghost use Rattle.test_words.specs.Adler.{summed, adler};

// The sum of no bytes.
pub const START: u64 = 1;

// The sum with one byte more.
fn with(sum: u64, b: u8) -> u64
    ensures { result ≡ summed sum b }
{
    let low = (sum % 65536 + b as u64) % 65521;
    let high = (sum / 65536 % 65536 + low) % 65521;
    high * 65536 + low
}

// The sum with a run of bytes more.
pub fn with_run(sum: u64, s: &[u8]) -> u64
    ensures { result ≡ adler sum s.now }
{
    s.iter().fold(sum, |x, b| with(x, *b))
}
