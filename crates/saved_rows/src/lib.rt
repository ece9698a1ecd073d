// What a save takes of the storage, put into lent bytes: the records of the rows, and the options of the header.
#![tactic(auto)]

ghost use Rattle.std.specs.Prelude.{◌≡◌, ◌+◌, ◌≤◌, ◌<◌, length};
ghost use Rattle.le.specs.Mem.{write};
ghost use Rattle.rules.specs.Fields.{row_length};
ghost use Rattle.rules.specs.Saved.{node_row, options_row, node_bytes, nodes_bytes, options_bytes};
ghost use Rattle.rules.specs.StateRestore.{saved_node, saved_nodes};
ghost use Rattle.tables.specs.Layout.{capacity_of, count_of};
ghost use Rattle.tables.specs.View.{options_from, head_of, node_at, nodes_of};
ghost use Rattle.tables.specs.Laid.{Bounds};
ghost use Rattle.row_name.specs.Copied.{Copied};
ghost use Rattle.saved_rows.specs.Parts.{Sizes};

use row_name::{copy_name, name_len};
use saved_parts::places::RECORD;

// How many bytes the node records take (R120).
pub fn records_size(s: &[u8]) -> usize
    requires { Bounds s.now }
    ensures { Sizes s.now result }
{
    let mut size = 0;
    for i in 0..tables::header::count(s) {
        size += RECORD + name_len(s, i);
    }
    size
}

// Puts the record of row i at the start of the lent bytes: its length (R120).
fn put_record(s: &[u8], i: usize, out: &mut [u8]) -> usize
    requires bounds { Bounds s.now }
    requires i_bound { i < count_of s.now }
    requires i_in_bounds { row_length node_row + length (node_at (capacity_of s.now) s.now i).name ≤ length out.old }
    ensures { Copied (node_bytes (saved_node (node_at (capacity_of s.now) s.now i))) out.old 0 result out.new }
{
    let number = tables::rows::number(s, i);
    let parent = tables::rows::parent(s, i);
    saved_parts::records::put_head(out, number, parent, name_len(s, i) as u16);
    RECORD + copy_name(s, i, out, RECORD)
}

// Puts the records of all rows, in table order, each into the rest that is unwritten (R120, R126).
pub fn put_records(s: &[u8], out: &mut [u8])
    requires bounds { Bounds s.now }
    requires s_in_bounds { length (nodes_bytes (saved_nodes (nodes_of s.now))) ≤ length out.old }
    ensures { out.new ≡ write out.old 0 (nodes_bytes (saved_nodes (nodes_of s.now))) }
{
    let mut at = 0;
    for i in 0..tables::header::count(s) {
        at += put_record(s, i, &mut out[at..]);
    }
}

// Puts the options of the header, with their own mapping, at a place (R34, R121).
pub fn put_options(s: &[u8], out: &mut [u8], at: usize)
    requires bounds { Bounds s.now }
    requires options_row_in_bounds { at + row_length options_row ≤ length out.old }
    ensures { out.new ≡ write out.old at (options_bytes (options_from (head_of s.now))) }
{
    saved_parts::options::put_options(out, at, storage::inner::options_in(s));
}
