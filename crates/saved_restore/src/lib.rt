// The parts of a state restore: the tests of a fresh instance and of the state, the records loaded, and the header.
#![tactic(auto)]

ghost use Rattle.std.specs.Prelude.{◌≡◌, true, ◌+◌, ◌≤◌, ◌<◌, length, ltb};
ghost use Rattle.rules.specs.Create.{unknown};
ghost use Rattle.rules.specs.Saved.{tail_length, saved_node_at, behind, saved_records, state_of, accepted};
ghost use Rattle.rules.specs.StateRestore.{fresh};
ghost use Rattle.vfs_options.specs.Given.{options_in};
ghost use Rattle.tables.specs.Layout.{table_at, capacity_of, count_of};
ghost use Rattle.tables.specs.View.{view};
ghost use Rattle.tables.specs.Laid.{laid, Bounds};
ghost use Rattle.saved_restore.specs.Parts.{has_bits, Loads, load_node, load_nodes, set_options, set_state, state_mem};

use saved_parts::options::options_of;
use saved_parts::records::{first_records, name_at, number_at, parent_at};
use saved_parts::trailer::{count_of, counter_of, next_of};
use vfs_options::VfsOptions;

// Whether there is no node besides the root, and no mount (R132).
pub fn is_fresh(s: &[u8]) -> bool
    requires { Bounds s.now }
    ensures { result ≡ fresh (view s.now) }
{
    tables::header::count(s) == 0 && tables::mounts::of_root(s).is_none()
}

// Whether an option bit of the state is outside the mask of the instance (R130).
pub fn has_unknown(s: &[u8], b: &[u8]) -> bool
    requires table_at_in_bounds { table_at ≤ length s.now }
    requires tail_length_in_bounds { tail_length ≤ length b.now }
    ensures { result ≡ unknown (view s.now).fixed.known (state_of b.now).options }
{
    let known = le::fields::get_u64(s, tables::places::KNOWN_AT);
    storage::inner::is_unknown(known, options_of(b))
}

// Whether the records and the root are more than N (R131).
pub fn is_too_many(s: &[u8], b: &[u8]) -> bool
    requires bounds { Bounds s.now }
    requires tail_length_in_bounds { tail_length ≤ length b.now }
    ensures { result ≡ ltb (view s.now).fixed.capacity (1 + length (state_of b.now).nodes) }
{
    tables::header::capacity(s) <= count_of(b)
}

// The record at a place goes to the end of the table, with its own number (R134).
fn load_record(s: &mut [u8], b: &[u8], at: usize)
    requires s_value { laid s.old ≡ true }
    requires s_bound { count_of s.old + 1 < capacity_of s.old }
    requires at_in_bounds { behind b.now at ≤ length b.now }
    requires loads { Loads (saved_node_at b.now at) }
    ensures { s.new ≡ load_node (saved_node_at b.now at) s.old }
{
    le::fields::put_u64(s, tables::places::NEXT_AT, number_at(b, at));
    tables::rows::append(s, parent_at(b, at), name_at(b, at));
}

// All records, in their order (R134).
fn load_records(s: &mut [u8], b: &[u8])
    requires s_value { laid s.old ≡ true }
    requires b_value { accepted b.now ≡ true }
    requires b_bound { count_of s.old + saved_records b.now < capacity_of s.old }
    ensures { s.new ≡ load_nodes (state_of b.now).nodes s.old }
{
    for at in first_records(b, count_of(b)) {
        load_record(s, b, at);
    }
}

// The options, with their own mapping and flags (R134).
fn put_options(s: &mut [u8], o: VfsOptions)
    requires { table_at ≤ length s.old }
    ensures { s.new ≡ set_options (options_in o) s.old }
{
    le::fields::put_u64(s, tables::places::IN_OPTS_AT, o.in_opts);
    le::fields::put_u64(s, tables::places::OUT_OPTS_AT, o.out_opts);
    tables::header::put_mapping(s, tables::places::OWN_MAPPING_AT, o.id_mapping);
    le::fields::put_u8(s, tables::places::FLAGS_AT, o.flags);
}

// Next number, options and counter are the state's, and `initialized` says whether in_opts has a bit (R134).
fn put_state(s: &mut [u8], next: u64, counter: u8, o: VfsOptions)
    requires { table_at ≤ length s.old }
    ensures { s.new ≡ set_state next counter (options_in o) s.old }
{
    le::fields::put_u64(s, tables::places::NEXT_AT, next);
    put_options(s, o);
    le::fields::put_u8(s, tables::places::COUNTER_AT, counter);
    le::fields::put_u8(s, tables::places::INITIALIZED_AT, u8::from(o.in_opts != 0));
}

// The state of bytes that are accepted, where there is room for its records (R134).
pub fn put_saved(s: &mut [u8], b: &[u8])
    requires s_value { laid s.old ≡ true }
    requires b_value { accepted b.now ≡ true }
    requires b_bound { count_of s.old + saved_records b.now < capacity_of s.old }
    ensures { s.new ≡ state_mem (state_of b.now) s.old }
{
    load_records(s, b);
    put_state(s, next_of(b), counter_of(b), options_of(b));
}
