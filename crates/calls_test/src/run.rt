// A run of a script, line after line: what it has set, and what each line does.
ghost use Rattle.std.specs.Prelude.{◌<◌};

use crate::sink::Sink;
use crate::verbs::Verb;
use path::components::part_end;
use test_steps::lent;
use test_steps::loops::{Loops, Turn};
use test_words::numbers::{least, low8};

// How many variables a script has, `a` to `h`; a line names one by its number, modulo this.
pub const VARIABLES: usize = test_expand::CELLS;

// How many bytes a script has, of each kind.
pub const BYTES: usize = 851968;

#[derive(Drop)]
pub struct Run {
    // The lent bytes, and what stood in them before the call at hand.
    pub storage: [u8; BYTES],
    pub before: [u8; BYTES],
    // The copy that a script keeps, and the saved bytes.
    pub kept: [u8; BYTES],
    pub saved: [u8; BYTES],
    // The text of the calls, and how long it is.
    pub text: [u8; 8192],
    pub text_len: usize,
    pub variables: [u64; VARIABLES],
    pub loops: Loops,
    // Where the next line starts.
    pub place: u64,
    // The generator of numbers.
    pub seed: u64,
    // How many bytes are lent, and how many are compared after each call; whether the tables are summed.
    pub lent: u64,
    pub watch: u64,
    pub views: bool,
    pub sink: Sink,
}

impl Run {
    // Line after line, with the numbers of variables put in. The turns are counted up to a number that no script uses up.
    pub fn run(&mut self, input: &[u8], line: &mut [u8]) {
        for _ in 0..u64::MAX {
            let at = self.place as usize;
            if input.len() <= at {
                return;
            }
            let end = part_end(input, at, b'\n');
            self.place = end as u64 + 1;
            let n = test_expand::expanded(&input[at..end], &self.variables, line);
            self.line(&line[..n]);
        }
    }

    // One line: a comment, a heading, or a verb with its numbers.
    fn line(&mut self, line: &[u8]) {
        match line {
            [] | [0 | b'#', ..] => {}
            [b':', ..] => {
                self.sink.bytes(line);
                self.sink.byte(b'\n');
            }
            _ => {
                self.put_text(line);
                let name = word(line);
                let n = test_words::numbers::numbers(line);
                self.step(Verb::from_name(name), name, &n);
            }
        }
    }

    // The text of a line, behind the first `"`; it stays as it was where the line has none.
    fn put_text(&mut self, line: &[u8]) {
        let mark = part_end(line, 0, b'"');
        if mark < line.len() {
            self.text_len = test_words::hex::decoded(word(&line[mark + 1..]), &mut self.text);
        }
    }

    // What a verb does.
    fn step(&mut self, verb: Option<Verb>, name: &[u8], n: &[u64; 8]) {
        let v = n[0] as usize % VARIABLES;
        match verb {
            Some(Verb::Loop) => self.open(v, n[1], n[2]),
            Some(Verb::End) => self.end(),
            Some(Verb::Set) => self.variables[v] = n[1],
            Some(Verb::Add) => self.variables[v] = self.variables[v].wrapping_add(n[1]),
            Some(Verb::Seed) => self.seed = n[0],
            Some(Verb::Random) => self.random(v, n[1]),
            Some(Verb::Text) => {}
            Some(Verb::More) => self.more(n[0], low8(n[1])),
            Some(Verb::Length) => self.lent = n[0],
            Some(Verb::Watch) => self.watch = n[0],
            Some(Verb::Views) => self.views = n[0] != 0,
            Some(Verb::Fold) => self.sink.fold(),
            Some(Verb::Plain) => self.sink.plain(name),
            Some(Verb::Fill) => self.set(n[0], |s, at| lent::fill(s, at, n[1], low8(n[2]))),
            Some(Verb::Scatter) => self.set(n[0], |s, at| lent::scatter(s, at, n[1], n[2])),
            Some(Verb::Poke1) => self.set(n[0], |s, at| lent::put_byte(s, at, n[1])),
            Some(Verb::Poke8) => self.set(n[0], |s, at| lent::put_word(s, at, n[1])),
            Some(Verb::Raise) => self.set(n[0], |s, at| lent::raise(s, at, n[1])),
            Some(Verb::Keep) => self.keep(n[0]),
            Some(Verb::Back) => self.back(n[0]),
            Some(Verb::Same) => self.same(n[0], n[1]),
            _ => self.call(verb, name, n),
        }
    }

    // A loop of so many turns from the next line on, over a variable from a number on.
    fn open(&mut self, v: usize, from: u64, turns: u64)
        requires { v < 8 }
    {
        let place = self.place;
        test_steps::loops::open(&mut self.loops, place, v as u64, turns);
        self.variables[v] = from;
    }

    // The end of a loop: its next turn, with its variable one higher, or the run goes on behind it.
    fn end(&mut self) {
        if let Some(Turn { place, variable }) = test_steps::loops::close(&mut self.loops) {
            self.place = place;
            let v = variable as usize % VARIABLES;
            self.variables[v] = self.variables[v].wrapping_add(1);
        }
    }

    // A variable becomes the next number of the generator, below a limit.
    fn random(&mut self, v: usize, limit: u64)
        requires { v < 8 }
    {
        self.seed = test_steps::generator::following(self.seed);
        if limit != 0 {
            self.variables[v] = self.seed / 256 % limit;
        }
    }

    // So many bytes more behind the text.
    fn more(&mut self, n: u64, b: u8) {
        let len = self.text_len as u64;
        lent::fill(&mut self.text, len, n, b);
        self.text_len = least(len.wrapping_add(n), self.text.len());
    }
}

// The bytes up to the first space.
fn word(s: &[u8]) -> &[u8] {
    &s[..part_end(s, 0, b' ')]
}
