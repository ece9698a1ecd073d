// The components of a path, one after the other (R37), and its leading slash.
ghost use Rattle.std.specs.Prelude.{◌≡◌, [], ◌≤◌, ◌<◌, length};
ghost use Rattle.rules.specs.Path.{sorted, rooted};
ghost use Rattle.path.specs.Steps.{between, part_end, first_component, next_component};

use crate::eight::any_byte;
use crate::names::{is_dot, is_dots};

// A component, with the place where it starts and the place behind it (R37).
#[derive(Clone, Copy, Debug, PartialEq, Eq)]
pub enum Component {
    Normal {
        start: usize,
        len: usize,
        next: usize,
    },
    ParentDir {
        start: usize,
        next: usize,
    },
}

// Whether the path has its leading slash (R36, R43).
pub fn is_rooted(path: &[u8]) -> bool
    ensures { result ≡ rooted path.now }
{
    path.first() == Some(&b'/')
}

// Where the bytes from `at` on meet the next byte `sep`, or end, one by one.
fn part_by_one(s: &[u8], at: usize, sep: u8) -> usize
    ensures { result ≡ part_end sep s.now at }
{
    for i in at..s.len() {
        if s[i] == sep {
            return i;
        }
    }
    at.max(s.len())
}

// Where the bytes from `at` on meet the next byte `sep`, or end (R37, R146): eight bytes without it are passed over together.
pub fn part_end(s: &[u8], at: usize, sep: u8) -> usize
    ensures { result ≡ part_end sep s.now at }
{
    if s.len() <= at {
        return at;
    }
    let mut i = at;
    while 8 <= s.len() - i && !any_byte(s, i, sep) {
        i += 8;
    }
    part_by_one(s, i, sep)
}

// The component that the part from `at` to `end`, of a byte or more, is; none where it is dropped.
fn component_at(path: &[u8], at: usize, end: usize) -> Option<Component>
    requires { (at < end) × (end ≤ length path.now) }
    ensures { result ≡ first_component (sorted at (between path.now at end) []) }
{
    let word = &path[at..end];
    if is_dot(word) {
        return None;
    }
    if is_dots(word) {
        return Some(Component::ParentDir {
            start: at,
            next: end,
        });
    }
    Some(Component::Normal {
        start: at,
        len: end - at,
        next: end,
    })
}

// The next component from `at` on, with the place where it starts and the place behind it (R37). A slash is passed over by itself.
pub fn next_component(path: &[u8], at: usize) -> Option<Component>
    ensures { result ≡ next_component path.now at }
{
    for i in at..path.len() {
        if path[i] == b'/' {
            continue;
        }
        let end = part_end(path, i, b'/');
        if let Some(c) = component_at(path, i, end) {
            return Some(c);
        }
    }
    None
}
