// What a run writes: bytes to standard output, or into a sum of answers.
use test_words::sums;

// The descriptor of standard output.
const STDOUT_FILENO: i32 = 1;

// Where the bytes go.
#[derive(Clone, Copy, Debug, PartialEq, Eq)]
enum Way {
    Written,
    Folded,
}

#[derive(Drop)]
pub struct Sink {
    way: Way,
    // The sum of the bytes that were folded last.
    sum: u64,
    // How many answers were told.
    pub answers: u64,
    // The number of the answer at hand.
    pub code: u32,
}

impl Sink {
    pub fn new() -> Sink {
        Sink {
            way: Way::Written,
            sum: 0,
            answers: 0,
            code: 0,
        }
    }

    // From here on answers are folded into a sum.
    pub fn fold(&mut self) {
        self.way = Way::Folded;
        self.sum = sums::START;
        self.answers = 0;
    }

    // From here on they are written, and first how many there were, and their sum.
    pub fn plain(&mut self, name: &[u8]) {
        self.way = Way::Written;
        self.bytes(name);
        self.number(self.answers);
        self.number(self.sum);
        self.byte(b'\n');
    }

    // Bytes as they are.
    pub fn bytes(&mut self, s: &[u8]) {
        match self.way {
            Way::Written => {
                io::write_all(STDOUT_FILENO, s);
            }
            Way::Folded => self.sum = sums::with_run(self.sum, s),
        }
    }

    // One byte.
    pub fn byte(&mut self, b: u8) {
        self.bytes(&[b]);
    }

    // A space and the number.
    pub fn number(&mut self, n: u64) {
        let mut digits = [0u8; 20];
        let k = io::decimal(n, &mut digits);
        self.byte(b' ');
        self.bytes(&digits[..k]);
    }

    // The number of an answer, which is kept, and its values.
    pub fn answer(&mut self, code: u32, values: &[u64]) {
        self.code = code;
        self.number(code as u64);
        for n in values {
            self.number(*n);
        }
    }
}
