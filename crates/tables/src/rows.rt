// The node table: a row for each live node but the root, in creation order.
ghost use Rattle.std.specs.Prelude.{◌≡◌, true, ◌+◌, ◌-◌, ◌*◌, ◌≤◌, ◌<◌, ◌^◌, length, take, drop};
ghost use Rattle.le.specs.Mem.{read, same};
ghost use Rattle.scan.specs.First.{cell_is, first_place};
ghost use Rattle.scan.specs.Key.{mask_of, word_of};
ghost use Rattle.rules.specs.Numbers.{max_nodes, storage_for};
ghost use Rattle.rules.specs.Tree.{is_child, child_in, is_known, parent_in};
ghost use Rattle.tables.specs.Table.{put_row, close_up};
ghost use Rattle.tables.specs.Layout.{node_table, lasts_at, capacity_of, count_of, next_of};
ghost use Rattle.tables.specs.View.{node_at, nodes_of};
ghost use Rattle.tables.specs.Laid.{Bounds};
ghost use Rattle.tables.specs.Write.{name_cells, node_cells, append_node, remove_row};
ghost use Rattle.tables.specs.Answer.{place_in};

use scan::names::NameKey;

// The bits of a cell that a node number is read from (R5).
const NUMBER_BITS: u64 = rules::VFS_MAX_INO;

// The number of row i (R5).
pub fn number(s: &[u8], i: usize) -> u64
    requires bounds { Bounds s.now }
    requires i_bound { i < count_of s.now }
    ensures { result ≡ (node_at (capacity_of s.now) s.now i).number }
{
    le::fields::get_u64(s, crate::places::number_at(i)) % rules::NUMBERS
}

// The parent's number of row i (R5).
pub fn parent(s: &[u8], i: usize) -> u64
    requires bounds { Bounds s.now }
    requires i_bound { i < count_of s.now }
    ensures { result ≡ (node_at (capacity_of s.now) s.now i).parent }
{
    let n = crate::header::capacity(s);
    le::fields::get_u64(s, crate::places::PARENTS.at(n, i)) % rules::NUMBERS
}

// The first row from `from` on whose name's cell is that of the key. Rows of that name are among them (R45).
pub fn next_alike(s: &[u8], from: usize, key: NameKey) -> Option<usize>
    requires bounds { Bounds s.now }
    requires from_bound { from ≤ count_of s.now }
    ensures { result ≡ first_place (cell_is s.now (lasts_at (capacity_of s.now)) key.mask key.word) from (count_of s.now - from) }
{
    let n = crate::header::capacity(s);
    let c = crate::header::count(s);
    scan::cells::find_cell(
        s,
        crate::places::LASTS.at(n, 0),
        from,
        c,
        key.mask,
        key.word,
    )
}

// Whether the bytes of a name before its last seven stand at a place: up to eight are one number.
fn same_start(s: &[u8], p: usize, name: &[u8]) -> bool
    requires { (p + 248 ≤ length s.now) × (length name.now ≤ 255) }
    ensures { result ≡ same (read s.now p (length name.now - 7)) (read name.now 0 (length name.now - 7)) }
{
    let len = name.len();
    if len < 8 {
        return true;
    }
    if len < 16 {
        let mask = scan::names::mask_of(len - 8);
        return le::fields::get_u64(s, p) & mask == le::fields::get_u64(name, 0) & mask;
    }
    le::runs::same_at(s, p, name, 0, len - 7)
}

// Whether row i, whose name's cell is that of the name, is the child of that name: what is left to compare is the parent and the bytes before the last seven; a name over
// 255 bytes is no row's (R10, R45).
pub fn child_alike(s: &[u8], i: usize, here: u64, name: &[u8]) -> bool
    requires bounds { Bounds s.now }
    requires i_bound { i < count_of s.now }
    requires i_value { cell_is s.now (lasts_at (capacity_of s.now)) (mask_of name.now) (word_of name.now) i ≡ true }
    ensures { result ≡ is_child here name.now (node_at (capacity_of s.now) s.now i) }
{
    if rules::MAX_NAME < name.len() {
        return false;
    }
    if parent(s, i) != here {
        return false;
    }
    let n = crate::header::capacity(s);
    same_start(s, crate::places::FIRSTS.at(n, i), name)
}

// The first child of that name (R45).
pub fn find_child(s: &[u8], here: u64, name: &[u8]) -> Option<u64>
    requires { Bounds s.now }
    ensures { result ≡ child_in (nodes_of s.now) here name.now }
{
    let key = scan::names::key_of(name);
    let mut i = 0;
    while let Some(j) = next_alike(s, i, key) {
        if child_alike(s, j, here, name) {
            return Some(number(s, j));
        }
        i = j + 1;
    }
    None
}

// The row of the first node of that number (R53).
pub fn find_row(s: &[u8], x: u64) -> Option<usize>
    requires { Bounds s.now }
    ensures { result ≡ place_in (nodes_of s.now) x }
{
    let c = crate::header::count(s);
    scan::cells::find_cell(s, crate::places::TABLE, 0, c, NUMBER_BITS, x)
}

// Whether the number is the root's or a node's; the row that it has where no node was removed before it is asked first (R52).
pub fn is_known(s: &[u8], x: u64) -> bool
    requires { Bounds s.now }
    ensures { result ≡ is_known (nodes_of s.now) x }
{
    if x == rules::ROOT_ID {
        return true;
    }
    if rules::PSEUDOFS_NEXT_INODE <= x {
        let i = (x - rules::PSEUDOFS_NEXT_INODE) as usize;
        if i < crate::header::count(s) && number(s, i) == x {
            return true;
        }
    }
    find_row(s, x).is_some()
}

// The parent's number; the root's is the root's, and so is that of a number which is no node (R39, R52, R54, R58).
pub fn parent_of(s: &[u8], x: u64) -> u64
    requires { Bounds s.now }
    ensures { result ≡ parent_in (nodes_of s.now) x }
{
    if x == rules::ROOT_ID {
        return rules::ROOT_ID;
    }
    match find_row(s, x) {
        Some(i) => parent(s, i),
        None => rules::ROOT_ID,
    }
}

// Writes the name of row i: its length and last bytes, and the bytes before them (R10).
fn put_name(s: &mut [u8], n: usize, i: usize, name: &[u8])
    requires { (n ≤ max_nodes) × (storage_for n ≤ length s.old) × (i < n) × (length name.now ≤ 255) }
    ensures { s.new ≡ put_row (drop 3 (node_table n)) (name_cells name.now) s.old i }
{
    let len = name.len();
    let rest = len.saturating_sub(7);
    let at = crate::places::LASTS.at(n, i);
    le::fields::put_u8(s, at, len as u8);
    le::runs::copy_run(s, at + 1, name, rest, len - rest);
    le::runs::copy_run(s, crate::places::FIRSTS.at(n, i), name, 0, rest);
}

// Writes the cells of a new node at row i.
fn put_node(s: &mut [u8], n: usize, i: usize, x: u64, parent: u64, name: &[u8])
    requires { (n ≤ max_nodes) × (storage_for n ≤ length s.old) × (i < n) × (length name.now ≤ 255) }
    ensures { s.new ≡ put_row (node_table n) (node_cells x parent name.now) s.old i }
{
    le::fields::put_u64(s, crate::places::number_at(i), x);
    le::fields::put_u64(s, crate::places::PARENTS.at(n, i), parent);
    le::fields::put_u64(s, crate::places::MOUNTS.at(n, i), 0);
    put_name(s, n, i, name);
}

// A new node at the end takes the next number (R48, R49).
pub fn append(s: &mut [u8], parent: u64, name: &[u8])
    requires bounds { Bounds s.old }
    requires s_bound { count_of s.old + 1 < capacity_of s.old }
    requires s_bound_2 { next_of s.old < 2 ^ 56 }
    requires name_len_bound { length name.now ≤ 255 }
    ensures { s.new ≡ append_node parent name.now s.old }
{
    let n = crate::header::capacity(s);
    let c = crate::header::count(s);
    let x = crate::header::next(s);
    put_node(s, n, c, x, parent, name);
    le::fields::put_u64(s, crate::places::COUNT_AT, (c + 1) as u64);
    le::fields::put_u64(s, crate::places::NEXT_AT, x + 1);
}

// The m rows from row k + 1 on go down by one, in every column.
fn close_up(s: &mut [u8], n: usize, k: usize, m: usize)
    requires { (n ≤ max_nodes) × (storage_for n ≤ length s.old) × (k + 1 + m ≤ n) }
    ensures { s.new ≡ close_up (node_table n) s.old k m }
{
    for c in &crate::places::COLUMNS {
        le::runs::shift_down(s, c.at(n, k), c.width, c.width * m);
    }
}

// Row i goes, and those behind it close up (R25, R44).
pub fn remove(s: &mut [u8], i: usize)
    requires bounds { Bounds s.old }
    requires i_bound { i < count_of s.old }
    ensures { s.new ≡ remove_row i s.old }
{
    let n = crate::header::capacity(s);
    let c = crate::header::count(s);
    close_up(s, n, i, c - 1 - i);
    le::fields::put_u64(s, crate::places::COUNT_AT, (c - 1) as u64);
}
