// The indexes: 256 slots and the counter from which the search for a free one starts.
#![tactic(auto)]

ghost use Rattle.std.specs.Prelude.{◌≡◌};
ghost use Rattle.rules.specs.Round.{free_of, allocate};
ghost use Rattle.index.specs.Slots.{held_in_column, New};
ghost use Rattle.index.specs.Search.{search_told};
ghost use Rattle.index.specs.Take.{table_of, Steps};

use rules::codes::{DONE, VfsError};

// The slots and the counter, of numbers alone, as a host lends them: a slot is held where its occupancy byte is not 0 (R56, R90).
#[repr(C)]
#[derive(Clone, Copy)]
pub struct FsIndexes {
    pub used: [u8; rules::MAX_VFS_INDEX],
    pub tags: [u32; rules::MAX_VFS_INDEX],
    pub next_super: u8,
}

// What a search gives: the index found, none where all are held, how many indexes it visited, and the counter after it.
#[derive(Clone, Copy, Debug, PartialEq, Eq)]
pub struct Allocated {
    pub answer: Option<u8>,
    pub count: u32,
    pub next_super: u8,
}

// The number of the answer, the index or 0, and the count.
#[repr(C)]
#[derive(Clone, Copy)]
pub struct AllocateAnswer {
    pub code: u32,
    pub fs_idx: u32,
    pub count: u32,
}

// The occupancy byte of an empty slot (R56).
pub const EMPTY: u8 = 0;

// The occupancy byte of a slot that is taken; any other but 0 means held too (R56).
pub const HELD: u8 = 1;

// The tag of an empty slot (R31, R56).
pub const NO_TAG: u32 = 0;

// A new instance's: 256 empty slots, and counter 1 (R31).
pub fn new() -> FsIndexes
    ensures { New result }
{
    FsIndexes {
        used: [EMPTY; rules::MAX_VFS_INDEX],
        tags: [NO_TAG; rules::MAX_VFS_INDEX],
        next_super: rules::FIRST_COUNTER,
    }
}

// An index can be handed out: it is not 0, and its slot is empty; past the end a slot counts as empty (R11, R56, R81).
fn is_free(used: &[u8], index: u8) -> bool
    ensures { result ≡ free_of (held_in_column used.now) index }
{
    let occupancy = used.get(index as usize).copied().unwrap_or(EMPTY);
    index != rules::VFS_PSEUDO_FS_IDX && occupancy == EMPTY
}

// The first free index by the occupancy bytes, going round from the counter on, until the start is met twice (R80 to R84). The loop breaks
// with its answer (R173).
pub fn allocate_fs_idx(used: &[u8], next_super: u8) -> Allocated
    ensures { result ≡ search_told (allocate (held_in_column used.now) next_super) }
{
    let mut next = next_super;
    let mut count: u32 = 0;
    let answer = loop {
        let index = next;
        next = next.wrapping_add(1);
        count += 1;
        if index == next_super && 1 < count {
            break None;
        }
        if is_free(used, index) {
            break Some(index);
        }
    };
    Allocated {
        answer,
        count,
        next_super: next,
    }
}

// An index is taken for a tag, in place: the slot found holds it, and the counter has moved; answers the index and the count, or FULL (R83, R90).
pub fn take<'a>(
    used: &'a mut [u8; rules::MAX_VFS_INDEX],
    tags: &'a mut [u32; rules::MAX_VFS_INDEX],
    next_super: &'a mut u8,
    tag: u32,
) -> AllocateAnswer
    ensures { Steps (table_of used.old tags.old next_super.old) tag result
        (table_of used.new tags.new next_super.new) }
{
    let start = *next_super;
    let a = allocate_fs_idx(used, start);
    *next_super = a.next_super;
    match a.answer {
        Some(i) => {
            let at = i as usize;
            used[at] = HELD;
            tags[at] = tag;
            AllocateAnswer {
                code: DONE,
                fs_idx: i as u32,
                count: a.count,
            }
        }
        None => AllocateAnswer {
            code: VfsError::Full.code(),
            fs_idx: 0,
            count: a.count,
        },
    }
}

// The host's call: the slots and the counter are lent together, and both are changed in place (R90).
pub fn allocate_in(t: &mut FsIndexes, tag: u32) -> AllocateAnswer
    ensures { Steps t.old tag result t.new }
{
    take(&mut t.used, &mut t.tags, &mut t.next_super, tag)
}
