// Saved state: which bytes are accepted. One pass judges all but the pairs of records, then the pairs are judged: by what is kept
// of the first 1,023 records, and by scans of the bytes beyond them.
#![tactic(auto)]

ghost use Rattle.std.specs.Prelude.{◌≡◌, ◌≤◌, [], length};
ghost use Rattle.rules.specs.Saved.{saved_node_at, saved_nodes_at, behind, good_name, used, accepted};
ghost use Rattle.saved.specs.Scan.{start_of, earlier, sound, well_placed, all_placed, framed, sound_to, twin};
ghost use Rattle.saved.specs.Kept.{key_at, listed, KeepsRecords};

use saved_parts::places::{RECORD, TAIL, VERSION};
use saved_parts::records::{first_records, name_at, name_len, number_at, parent_at, record_end};
use saved_parts::{options, trailer};

// How many records are kept: all that an instance has room for besides its root (R9).
const MAX_KEPT: usize = rules::MAX_NODES - 1;

// What is kept of a record for the judgment of pairs: where it starts, its number and its key.
#[derive(Clone, Copy)]
struct Kept {
    start: usize,
    number: u64,
    key: u64,
}

// Whether the options and the trailer are in order: length, offset, version, zero bytes, flags, next number. The version and six zeros
// are one number, and so are the flags and three zeros (R129 a, b, d, e, f, h).
fn is_framed(b: &[u8]) -> bool
    ensures { result ≡ framed b.now }
{
    b.len() >= TAIL
        && trailer::offset_of(b) == options::start(b)
        && trailer::version_of(b) == u64::from(VERSION)
        && options::flags_of(b) < u32::from(rules::FLAGS)
        && (rules::PSEUDOFS_NEXT_INODE..=rules::NUMBERS).contains(&trailer::next_of(b))
}

// Whether a name has 1 to 255 bytes, no slash, is not `.` or `..`, and is UTF-8 (R129 j).
fn is_good_name(name: &[u8]) -> bool
    ensures { result ≡ good_name name.now }
{
    !name.is_empty()
        && name.len() <= rules::MAX_NAME
        && !path::names::has_byte(name, b'/')
        && !path::names::is_dot(name)
        && !path::names::is_dots(name)
        && utf8::is_utf8(name)
}

// Whether the record at a place has a number above the last one and below the next, and a good name (R129 g, h, j).
fn is_sound(b: &[u8], at: usize, last: u64, next: u64) -> bool
    requires { behind b.now at ≤ length b.now }
    ensures { result ≡ sound next last (saved_node_at b.now at) }
{
    let number = number_at(b, at);
    last < number && number < next && is_good_name(name_at(b, at))
}

// Whether `count` records fill the bytes up to a place exactly, and each is sound (R129 c, g, h, j).
fn are_sound(b: &[u8], to: usize, count: usize, next: u64) -> bool
    requires { to ≤ length b.now }
    ensures { result ≡ sound_to b.now next to count 0 1 }
{
    let mut last = rules::ROOT_ID;
    let mut at = 0;
    for _ in 0..count {
        if to - at < RECORD || to - at - RECORD < name_len(b, at) || !is_sound(b, at, last, next) {
            return false;
        }
        last = number_at(b, at);
        at = record_end(b, at);
    }
    at == to
}

// Whether two records have one parent and equal names (R129 k).
fn is_twin(b: &[u8], p: usize, q: usize) -> bool
    requires p_in_bounds { behind b.now p ≤ length b.now }
    requires q_in_bounds { behind b.now q ≤ length b.now }
    ensures { result ≡ twin (saved_node_at b.now p) (saved_node_at b.now q) }
{
    parent_at(b, p) == parent_at(b, q) && name_at(b, p) == name_at(b, q)
}

// Whether the parent of the record at a place, before which i stand, is there, and no twin, by a scan of the bytes (R129 i, k).
fn is_placed_by_scan(b: &[u8], at: usize, i: usize) -> bool
    requires at_value { at ≡ start_of b.now i }
    requires at_in_bounds { behind b.now at ≤ length b.now }
    ensures { result ≡ well_placed (earlier b.now i) (saved_node_at b.now at) }
{
    let parent = parent_at(b, at);
    let mut found = parent == rules::ROOT_ID;
    for p in first_records(b, i) {
        if is_twin(b, p, at) {
            return false;
        }
        found |= number_at(b, p) == parent;
    }
    found
}

// What twins have in common, in one number: the parent and the last eight bytes of the record, added.
fn key_at(b: &[u8], at: usize) -> u64
    requires { behind b.now at ≤ length b.now }
    ensures { result ≡ key_at b.now at }
{
    parent_at(b, at).wrapping_add(le::fields::get_u64(b, record_end(b, at) - 8))
}

// Whether a number is the root's or that of a record before (R129 i).
fn is_listed(before: &[Kept], number: u64) -> bool
    ensures { result ≡ listed number before.now }
{
    number == rules::ROOT_ID || before.iter().rev().any(|r| r.number == number)
}

// Whether a record before has the parent and the name of the record at a place: only those with its key are read (R129 k). Not
// inlined: among the variables of its callers the search would count in memory, and take up to four times as long.
#[inline(never)]
fn is_used(b: &[u8], at: usize, before: &[Kept]) -> bool
    requires keeps { KeepsRecords b.now before.now }
    requires at_value { at ≡ start_of b.now (length before.now) }
    requires at_in_bounds { behind b.now at ≤ length b.now }
    ensures { result ≡ used (saved_node_at b.now at).parent (saved_node_at b.now at).name (earlier b.now (length before.now)) }
{
    let key = key_at(b, at);
    before
        .iter()
        .any(|r| r.key == key && is_twin(b, r.start, at))
}

// Whether the parent of the record at a place, before which i stand, is there, and no twin: by what is kept of the records, or by a scan of the bytes
// where that is of fewer (R129 i, k).
fn is_placed(b: &[u8], at: usize, i: usize, kept: &[Kept]) -> bool
    requires keeps { KeepsRecords b.now kept.now }
    requires at_value { at ≡ start_of b.now i }
    requires at_in_bounds { behind b.now at ≤ length b.now }
    ensures { result ≡ well_placed (earlier b.now i) (saved_node_at b.now at) }
{
    if kept.len() < i {
        return is_placed_by_scan(b, at, i);
    }
    let before = &kept[..i];
    is_listed(before, parent_at(b, at)) && !is_used(b, at, before)
}

// Whether all of the records are placed, by what is kept of the first (R129 i, k).
fn are_all_placed(b: &[u8], count: usize, kept: &[Kept]) -> bool
    requires count_in_bounds { start_of b.now count ≤ length b.now }
    requires keeps { KeepsRecords b.now kept.now }
    ensures { result ≡ all_placed [] (saved_nodes_at b.now count 0) }
{
    first_records(b, count)
        .enumerate()
        .all(|(i, at)| is_placed(b, at, i, kept))
}

// Puts down what is kept of the first records, as many as there is room for.
fn fill(b: &[u8], kept: &mut [Kept])
    requires { start_of b.now (length kept.old) ≤ length b.now }
    ensures { KeepsRecords b.now kept.new }
{
    let mut at = 0;
    for r in kept.iter_mut() {
        *r = Kept {
            start: at,
            number: number_at(b, at),
            key: key_at(b, at),
        };
        at = record_end(b, at);
    }
}

// Whether each parent is 1 or an earlier record, and no two names under one parent are equal (R129 i, k).
fn are_placed(b: &[u8], count: usize) -> bool
    requires { start_of b.now count ≤ length b.now }
    ensures { result ≡ all_placed [] (saved_nodes_at b.now count 0) }
{
    let none = Kept {
        start: 0,
        number: 0,
        key: 0,
    };
    let mut room = [none; MAX_KEPT];
    let kept = &mut room[..count.min(MAX_KEPT)];
    fill(b, kept);
    are_all_placed(b, count, kept)
}

// Whether the bytes are a saved state: what BADSAVE does not refuse (R129).
pub fn is_accepted(b: &[u8]) -> bool
    ensures { result ≡ accepted b.now }
{
    if !is_framed(b) {
        return false;
    }
    let count = trailer::count_of(b);
    are_sound(b, options::start(b), count, trailer::next_of(b)) && are_placed(b, count)
}
