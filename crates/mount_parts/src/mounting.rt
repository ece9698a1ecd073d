// Parts of a mount: the search for an index, rows 5 and 6, rows 7 and 8. Nothing but what is answered is for a host.
ghost use Rattle.std.specs.Prelude.{◌≡◌, true, ◌≤◌, length, Err};
ghost use Rattle.tables.specs.Laid.{laid};
ghost use Rattle.tables.specs.View.{view};
ghost use Rattle.mount_parts.specs.Follows.{Follows};
ghost use Rattle.mount_parts.specs.Mounting.{mounted_told, alloc_mem, unrooted_rule, Allocates, MountsAt};
ghost use Rattle.rules.specs.Round.{allocate};
ghost use Rattle.index.specs.Search.{search_told};
ghost use Rattle.tables.specs.Layout.{table_at, counter_byte};
ghost use Rattle.tables.specs.Answer.{is_held};

use crate::backend::Backend;
use crate::inner::insert_mount;
use index::Allocated;
use rules::codes::VfsError;

// What a done mount answers: the index, the count, and the tag replaced, if one was.
#[derive(Clone, Copy)]
pub struct Mounted {
    pub fs_idx: u8,
    pub count: u32,
    pub replaced: Option<u32>,
}

// Why a mount is refused, and the count.
#[derive(Clone, Copy)]
pub struct MountRefused {
    pub why: VfsError,
    pub count: u32,
}

// Refused before the search, where nothing was visited.
impl From<VfsError> for MountRefused {
    ghost from_gives = { λ e r. r ≡ record { why = e; count = 0 } };

    fn from(why: VfsError) -> MountRefused {
        MountRefused { why, count: 0 }
    }
}

// The first free index going round from the counter on (R80 to R84).
fn search(s: &[u8]) -> Allocated
    requires { table_at ≤ length s.now }
    ensures { result ≡ search_told (allocate (is_held s.now) (counter_byte s.now)) }
{
    let c = tables::header::counter(s);
    index::allocate_fs_idx(&s[tables::places::OCCUPANCY_AT..tables::places::TAGS_AT], c)
}

// The search for an index; the counter has moved (R80 to R84).
pub fn allocate(s: &mut [u8]) -> Allocated
    requires { laid s.old ≡ true }
    ensures { Allocates s.old result s.new }
{
    let a = search(s);
    tables::header::set_counter(s, a.next_super);
    a
}

// Rows 5 and 6, of a path without leading slash: the counter has moved (R72, R73).
pub fn unrooted(s: &mut [u8]) -> MountRefused
    requires { laid s.old ≡ true }
    ensures { Follows (unrooted_rule (view s.old)) (alloc_mem s.old) (mounted_told (Err result)) s.new }
{
    let found = allocate(s);
    let why = match found.answer {
        Some(_) => VfsError::Inval,
        None => VfsError::Full,
    };
    MountRefused {
        why,
        count: found.count,
    }
}

// Rows 7 and 8 on the node x, at the index found (R74, R75).
pub fn mount_at(
    s: &mut [u8],
    fs_idx: u8,
    count: u32,
    x: u64,
    b: Backend,
) -> Result<Mounted, MountRefused>
    requires s_value { laid s.old ≡ true }
    requires le_fs_idx { 1 ≤ fs_idx }
    ensures { MountsAt s.old fs_idx count x b result s.new }
{
    match insert_mount(s, fs_idx, x, b) {
        Ok(tags) => Ok(Mounted {
            fs_idx,
            count,
            replaced: tags.replaced,
        }),
        Err(why) => Err(MountRefused { why, count }),
    }
}
