// The mounts: of the root in the header, of a node in its row.
ghost use Rattle.std.specs.Prelude.{◌≡◌, ◌≤◌, ◌<◌, ◌^◌, None, Some};
ghost use Rattle.rules.specs.Numbers.{max_nodes};
ghost use Rattle.rules.specs.Instance.{mount_of_node};
ghost use Rattle.tables.specs.Layout.{capacity_of, count_of};
ghost use Rattle.tables.specs.View.{node_at, nodes_of, view};
ghost use Rattle.tables.specs.Laid.{Bounds};
ghost use Rattle.tables.specs.Answer.{put_mount};
ghost use Rattle.tables.specs.Answer.{mount_of_point, mount_in, row_cells, mount_by_cells, CellsWithin, RowOf, WithParent, node_mount_mem};

// A mount on a node: its index, the backend's root number, and the root's ids and mode as the request brought them (R3, R76).
#[derive(Clone, Copy)]
pub struct MountPoint {
    pub fs_idx: u8,
    pub root: u64,
    pub uid: u32,
    pub gid: u32,
    pub mode: u32,
}

// Where the cells of a mount stand.
#[derive(Clone, Copy)]
struct MountCells {
    word: usize,
    uid: usize,
    gid: usize,
    mode: usize,
}

// Those of the root, in the header (R52).
const ROOT_CELLS: MountCells = MountCells {
    word: crate::places::ROOT_CELL_AT,
    uid: crate::places::ROOT_UID_AT,
    gid: crate::places::ROOT_GID_AT,
    mode: crate::places::ROOT_MODE_AT,
};

// Those of row i, in a table of n rows (R76).
fn row_cells(n: usize, i: usize) -> MountCells
    requires { (n ≤ max_nodes) × (i ≤ n) }
    ensures { result ≡ row_cells n i }
{
    MountCells {
        word: crate::places::MOUNTS.at(n, i),
        uid: crate::places::UIDS.at(n, i),
        gid: crate::places::GIDS.at(n, i),
        mode: crate::places::MODES.at(n, i),
    }
}

// The mount that the cells spell: the word is the index times 2^56, and the root number; index 0 is none (R5).
fn read(s: &[u8], at: MountCells) -> Option<MountPoint>
    requires { CellsWithin s.now at }
    ensures { mount_in result ≡ mount_by_cells s.now at }
{
    let word = le::fields::get_u64(s, at.word);
    let index = word / rules::NUMBERS;
    if index == 0 {
        return None;
    }
    Some(MountPoint {
        fs_idx: index as u8,
        root: word % rules::NUMBERS,
        uid: le::fields::get_u32(s, at.uid),
        gid: le::fields::get_u32(s, at.gid),
        mode: le::fields::get_u32(s, at.mode),
    })
}

// The cells spell that mount then.
fn write(s: &mut [u8], at: MountCells, m: MountPoint)
    requires within { CellsWithin s.old at }
    requires root_bound { m.root < 2 ^ 56 }
    ensures { s.new ≡ put_mount at (mount_of_point m) s.old }
{
    let word = (m.fs_idx as u64) * rules::NUMBERS + m.root;
    le::fields::put_u64(s, at.word, word);
    le::fields::put_u32(s, at.uid, m.uid);
    le::fields::put_u32(s, at.gid, m.gid);
    le::fields::put_u32(s, at.mode, m.mode);
}

// The mount on the root (R52).
pub fn of_root(s: &[u8]) -> Option<MountPoint>
    requires { Bounds s.now }
    ensures { mount_in result ≡ (view s.now).tree.root }
{
    read(s, ROOT_CELLS)
}

// The mount of row i (R76).
fn of_row(s: &[u8], i: usize) -> Option<MountPoint>
    requires bounds { Bounds s.now }
    requires i_bound { i < count_of s.now }
    ensures { mount_in result ≡ (node_at (capacity_of s.now) s.now i).mount }
{
    read(s, row_cells(crate::header::capacity(s), i))
}

// The mount on the node of that number; 1 is the root before any row is asked (R52).
pub fn of_node(s: &[u8], x: u64) -> Option<MountPoint>
    requires { Bounds s.now }
    ensures { mount_in result ≡ mount_of_node (view s.now).tree x }
{
    if x == rules::ROOT_ID {
        return of_root(s);
    }
    of_row(s, crate::rows::find_row(s, x)?)
}

// The mount on a node, the number of the node's parent, and the node's row; the root has no row.
#[derive(Clone, Copy)]
pub struct NodeMount {
    pub mount: Option<MountPoint>,
    pub parent: u64,
    pub row: Option<usize>,
}

// The mount on the node of that number, its parent's number and its row, by one search (R52, R54).
pub fn with_parent(s: &[u8], x: u64) -> NodeMount
    requires { Bounds s.now }
    ensures { WithParent s.now x result }
{
    if x == rules::ROOT_ID {
        return NodeMount {
            mount: of_root(s),
            parent: rules::ROOT_ID,
            row: None,
        };
    }
    match crate::rows::find_row(s, x) {
        Some(i) => NodeMount {
            mount: of_row(s, i),
            parent: crate::rows::parent(s, i),
            row: Some(i),
        },
        None => NodeMount {
            mount: None,
            parent: rules::ROOT_ID,
            row: None,
        },
    }
}

// The node of that number, in that row, has that mount (R76).
pub fn set(s: &mut [u8], x: u64, row: Option<usize>, m: MountPoint)
    requires bounds { Bounds s.old }
    requires row_of { RowOf s.old x row }
    requires root_bound { m.root < 2 ^ 56 }
    ensures { s.new ≡ node_mount_mem (nodes_of s.old) (Some (mount_of_point m)) x s.old }
{
    if x == rules::ROOT_ID {
        write(s, ROOT_CELLS, m);
    } else if let Some(i) = row {
        let at = row_cells(crate::header::capacity(s), i);
        write(s, at, m);
    }
}

// The node of that number, in that row, has no mount (R98).
pub fn clear(s: &mut [u8], x: u64, row: Option<usize>)
    requires bounds { Bounds s.old }
    requires row_of { RowOf s.old x row }
    ensures { s.new ≡ node_mount_mem (nodes_of s.old) None x s.old }
{
    if x == rules::ROOT_ID {
        le::fields::put_u64(s, ROOT_CELLS.word, 0);
    } else if let Some(i) = row {
        let at = row_cells(crate::header::capacity(s), i);
        le::fields::put_u64(s, at.word, 0);
    }
}
