// Reads the calls of the recorded list, makes each on the port, and writes it with the port's answer behind it, as the list has it (oracle/README.md).
#![tactic(auto)]

mod calls;
mod told;

use path::components::part_end;

// The descriptors of standard input and output.
const STDIN_FILENO: i32 = 0;

const STDOUT_FILENO: i32 = 1;

fn main() {
    let mut input = test_words::numbers::large();
    let n = io::read_full(STDIN_FILENO, &mut input);
    replay(&input[..n]);
}

fn replay(input: &[u8]) {
    let mut storage = test_words::numbers::large();
    let mut bytes = [0u8; 8192];
    let mut out = io::large_buffer();
    lines(input, &mut storage, &mut bytes, &mut out);
}

// Line after line, all on the same lent bytes.
fn lines(input: &[u8], storage: &mut [u8], bytes: &mut [u8], out: &mut [u8]) {
    let mut at = 0;
    while at < input.len() {
        let end = part_end(input, at, b'\n');
        line(&input[at..end], storage, bytes, out);
        at = end + 1;
    }
}

// One call, a letter with numbers and a byte string behind `x`, and its answer.
fn line(line: &[u8], storage: &mut [u8], bytes: &mut [u8], out: &mut [u8]) {
    io::write_all(STDOUT_FILENO, line);
    io::write_all(STDOUT_FILENO, b" =");
    let x = part_end(line, 0, b'x');
    let n = test_words::hex::pairs(line, x + 1, bytes);
    let letter = test_words::hex::byte_at(line, 0);
    let numbers = test_words::numbers::numbers(line);
    calls::call(letter, numbers, storage, &bytes[..n], out);
    io::write_all(STDOUT_FILENO, b"\n");
}
