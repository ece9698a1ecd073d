// Writes the answer of a call, in the form of the list.
use crate::STDOUT_FILENO;

// The numbers of an answer, each behind a space.
pub fn numbers(values: &[u64]) {
    for n in values {
        io::write_all(STDOUT_FILENO, b" ");
        io::print_decimal(STDOUT_FILENO, *n);
    }
}

// The number of an answer alone.
pub fn code(code: u32) {
    numbers(&[code as u64]);
}

// The number of an answer, how many bytes the call wrote, and these.
pub fn written(code: u32, len: u64, out: &[u8]) {
    numbers(&[code as u64, len]);
    io::write_all(STDOUT_FILENO, b" x");
    for b in &out[..test_words::numbers::least(len, out.len())] {
        io::print_hex(STDOUT_FILENO, *b as u64, 2);
    }
}
