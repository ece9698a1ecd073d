// Save and restore between the lent bytes and the saved ones; each tells its answer.
use crate::sink::Sink;
use test_words::numbers::least;
use test_words::sums;

// How many bytes behind the lent output go into its sum.
const BEHIND: u64 = 64;

// A save into so many of the saved bytes: how many were written, which is the answer too, and the sum of the lent ones and of some behind them.
pub fn save(s: &[u8], room: u64, saved: &mut [u8], sink: &mut Sink) -> u64 {
    let lent = least(room, saved.len());
    let a = flat_bytes::saved(persist::saving::save_to_bytes(s, &mut saved[..lent]));
    let all = least(room.wrapping_add(BEHIND), saved.len());
    let sum = sums::with_run(sums::START, &saved[..all]);
    sink.answer(a.code, &[a.written, sum]);
    a.written
}

// A restore from saved bytes.
pub fn restore(saved: &[u8], s: &mut [u8], sink: &mut Sink) {
    let a = persist::state_restoring::restore_from_bytes(s, saved);
    sink.answer(flat_bytes::state_restored(a).code, &[]);
}
