// A writer of text into a lent slice.
ghost use Rattle.std.specs.Prelude.{◌≡◌, ◌-◌, ◌∷◌, [], length};
ghost use Rattle.rules.specs.Session.{decimal};

// The lent slice, and the place where the next byte of the text goes.
#[derive(Drop)]
pub struct Text<'a> {
    pub out: &'a mut [u8],
    pub at: usize,
}

impl<'a> Text<'a> {
    ghost use Rattle.decimal.specs.Text.{HasRoom, Appended};

    // How many bytes more fit (R17).
    pub fn room(&self) -> usize
        ensures { result ≡ length self.now.out.now - self.now.at }
    {
        self.out.len().saturating_sub(self.at)
    }

    // Writes one byte (R145, R152).
    pub fn put_byte(&mut self, b: u8)
        requires { HasRoom self.old 1 }
        ensures { Appended self.old 1 (b ∷ []) self.new }
    {
        self.out[self.at] = b;
        self.at += 1;
    }

    // Writes a number as a decimal without leading zeros (R152).
    pub fn put_decimal(&mut self, n: u64)
        requires { HasRoom self.old (length (decimal n)) }
        ensures { Appended self.old (length (decimal n)) (decimal n) self.new }
    {
        if n < 10 {
            self.put_byte((48 + n) as u8);
            return;
        }
        self.put_decimal(n / 10);
        self.put_byte((48 + n % 10) as u8);
    }
}
