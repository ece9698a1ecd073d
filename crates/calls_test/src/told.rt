// A call on the lent bytes, and the line that tells its answer.
use crate::run::{BYTES, Run, VARIABLES};
use crate::verbs::Verb;
use crate::{calls, states};
use test_words::numbers::least;

// Where the counter stands in the storage (docs/LAYOUT.md).
const COUNTER_AT: usize = 81;

impl Run {
    // A call, and what it left. What stood in the watched bytes is kept before.
    pub fn call(&mut self, verb: Option<Verb>, name: &[u8], n: &[u64; 8]) {
        let watch = self.watch;
        test_steps::lent::copy(&mut self.before, &self.storage, watch);
        self.sink.bytes(name);
        self.made(verb, n);
        self.left(verb);
    }

    // The numbers of its answer.
    fn made(&mut self, verb: Option<Verb>, n: &[u64; 8]) {
        let lent = least(self.lent, BYTES);
        match verb {
            Some(Verb::Save) => {
                let s = &self.storage[..lent];
                let written = states::save(s, n[1], &mut self.saved, &mut self.sink);
                self.variables[n[0] as usize % VARIABLES] = written;
            }
            Some(Verb::Restore) => {
                let saved = &self.saved[..least(n[0], BYTES)];
                let storage = &mut self.storage[..];
                states::restore(saved, &mut storage[..lent], &mut self.sink);
            }
            _ => {
                let text = &self.text[..self.text_len.min(8192)];
                let storage = &mut self.storage[..];
                calls::call(verb, n, text, &mut storage[..lent], &mut self.sink);
            }
        }
    }

    // The rest of its line: the counter, what the call left, and the sum of the tables.
    fn left(&mut self, verb: Option<Verb>) {
        let counter = test_words::hex::byte_at(&self.storage, COUNTER_AT);
        self.sink.number(counter as u64);
        if self.watch != 0 {
            let done = self.sink.code == 0 && verb.is_some_and(|v| v.writes());
            let mark = if done { b'.' } else { self.mark() };
            self.sink.bytes(&[b' ', mark]);
        }
        if self.views {
            let sum = self.view();
            self.sink.number(sum);
        }
        self.sink.byte(b'\n');
        self.sink.answers = self.sink.answers.wrapping_add(1);
    }

    // What a call left of the watched bytes: `=` all are as they were, `c` all but the counter, `*` not all.
    fn mark(&self) -> u8 {
        let n = least(self.watch, BYTES);
        if self.storage[..n] == self.before[..n] {
            return b'=';
        }
        if COUNTER_AT < n
            && self.storage[..COUNTER_AT] == self.before[..COUNTER_AT]
            && self.storage[COUNTER_AT + 1..n] == self.before[COUNTER_AT + 1..n]
        {
            return b'c';
        }
        b'*'
    }

    // The sum of the tables; 0 where the bytes break the layout rule.
    fn view(&self) -> u64 {
        let lent = &self.storage[..least(self.lent, BYTES)];
        if storage::is_laid(lent) {
            test_view_sum::sum_of(lent)
        } else {
            0
        }
    }
}
