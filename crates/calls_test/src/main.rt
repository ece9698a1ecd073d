// Reads a script and makes the calls that it says on lent bytes: one line for each answer (docs/TESTS.md).
#![tactic(auto)]

use crate::run::{BYTES, Run, VARIABLES};
use crate::sink::Sink;
use test_steps::loops::Loops;
use test_words::numbers::large;

mod calls;
mod memory;
mod run;
mod sink;
mod states;
mod told;
mod verbs;

// The descriptor of standard input.
const STDIN_FILENO: i32 = 0;

fn main() {
    let mut input = large();
    let n = io::read_full(STDIN_FILENO, &mut input);
    script(&input[..n]);
}

// The two parts that a call makes are made first: with a call among its fields, Rattle's own compiler lays the struct of 3.4 MB twice.
fn script(input: &[u8]) {
    let mut line = [0u8; 8192];
    let loops = Loops::default();
    let sink = Sink::new();
    let mut run = Run {
        storage: [0; BYTES],
        before: [0; BYTES],
        kept: [0; BYTES],
        saved: [0; BYTES],
        text: [0; 8192],
        text_len: 0,
        variables: [0; VARIABLES],
        loops,
        place: 0,
        seed: 0,
        lent: 0,
        watch: 0,
        views: false,
        sink,
    };
    run.run(input, &mut line);
}
