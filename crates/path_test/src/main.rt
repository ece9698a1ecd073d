// Reads byte strings, one to a line in hex digits, and writes a line for each: where its well-formed UTF-8 ends, whether
// that is all of it, whether it has a leading slash, whether it is too long, the number of the component check, and its
// components: START+LENGTH for a name, START^ for a parent.
#![tactic(auto)]

use path::components::Component;

// The descriptors of standard input and output.
const STDIN_FILENO: i32 = 0;

const STDOUT_FILENO: i32 = 1;

fn main() {
    let mut input = io::large_buffer();
    let mut bytes = [0u8; 8192];
    let n = io::read_full(STDIN_FILENO, &mut input);
    all(&input[..n], &mut bytes);
}

// Every line, the last one too where no line end follows it.
fn all(input: &[u8], bytes: &mut [u8]) {
    for line in input.split_inclusive(|b| *b == b'\n') {
        let n = test_words::hex::pairs(line, 0, bytes);
        report(&bytes[..n]);
    }
}

fn report(s: &[u8]) {
    number(utf8::valid_to(s));
    digit(utf8::is_utf8(s) as u32);
    digit(path::components::is_rooted(s) as u32);
    digit(path::limits::is_too_long(s) as u32);
    digit(
        path::names::validate_path_component(s)
            .err()
            .map_or(0, |e| e.code()),
    );
    components(s);
    io::write_all(STDOUT_FILENO, b"\n");
}

fn number(n: usize) {
    io::print_decimal(STDOUT_FILENO, n as u64);
}

// A space, and a number of one digit, by one write.
fn digit(n: u32) {
    let text = [b' ', b'0' + (n % 10) as u8];
    io::write_all(STDOUT_FILENO, &text);
}

fn components(s: &[u8]) {
    let mut at = 0;
    while let Some(c) = path::components::next_component(s, at) {
        io::write_all(STDOUT_FILENO, b" ");
        at = match c {
            Component::ParentDir { start, next } => {
                number(start);
                io::write_all(STDOUT_FILENO, b"^");
                next
            }
            Component::Normal { start, len, next } => {
                number(start);
                io::write_all(STDOUT_FILENO, b"+");
                number(len);
                next
            }
        };
    }
}
