// The header: N, the number of nodes, the next number, the counter, the remove flag, and the mapping in force; a mapping at any place is read and written here too.
ghost use Rattle.std.specs.Prelude.{◌≡◌, ◌+◌, ◌≤◌, length};
ghost use Rattle.rules.specs.Ids.{mapping_at};
ghost use Rattle.id_map.specs.Mapping.{mapping_of};
ghost use Rattle.tables.specs.Layout.{table_at, capacity_of, count_of, next_of, counter_byte, mapping_field, removal_field};
ghost use Rattle.tables.specs.View.{flag, mapping_from, head_of};
ghost use Rattle.tables.specs.Laid.{Bounds};
ghost use Rattle.tables.specs.Write.{set_counter, set_removal, put_mapping};

// N (R9).
pub fn capacity(s: &[u8]) -> usize
    requires { Bounds s.now }
    ensures { result ≡ capacity_of s.now }
{
    le::fields::get_u64(s, crate::places::CAPACITY_AT) as usize
}

// How many nodes are live besides the root (R51).
pub fn count(s: &[u8]) -> usize
    requires { Bounds s.now }
    ensures { result ≡ count_of s.now }
{
    le::fields::get_u64(s, crate::places::COUNT_AT) as usize
}

// The next number (R49).
pub fn next(s: &[u8]) -> u64
    requires { Bounds s.now }
    ensures { result ≡ next_of s.now }
{
    le::fields::get_u64(s, crate::places::NEXT_AT)
}

// The counter (R80).
pub fn counter(s: &[u8]) -> u8
    requires { table_at ≤ length s.now }
    ensures { result ≡ counter_byte s.now }
{
    le::fields::get_u8(s, crate::places::COUNTER_AT)
}

// The counter is set (R83).
pub fn set_counter(s: &mut [u8], c: u8)
    requires { table_at ≤ length s.old }
    ensures { s.new ≡ set_counter c s.old }
{
    le::fields::put_u8(s, crate::places::COUNTER_AT, c);
}

// Whether an unmount takes its node out of the tree (R32).
pub fn removes(s: &[u8]) -> bool
    requires { table_at ≤ length s.now }
    ensures { result ≡ flag removal_field (head_of s.now) }
{
    le::fields::get_u8(s, crate::places::REMOVAL_AT) != 0
}

// `remove_pseudo_root` is set (R32).
pub fn set_removes(s: &mut [u8])
    requires { table_at ≤ length s.old }
    ensures { s.new ≡ set_removal s.old }
{
    le::fields::put_u8(s, crate::places::REMOVAL_AT, 1);
}

// The mapping at a place: internal, external, range (R27).
pub fn mapping_at(s: &[u8], at: usize) -> id_map::IdMapping
    requires { at + 12 ≤ length s.now }
    ensures { mapping_of result ≡ mapping_at s.now at }
{
    id_map::IdMapping {
        internal: le::fields::get_u32(s, at),
        external: le::fields::get_u32(s, at + 4),
        range: le::fields::get_u32(s, at + 8),
    }
}

// The mapping stands at the place then (R27).
pub fn put_mapping(s: &mut [u8], at: usize, m: id_map::IdMapping)
    requires { at + 12 ≤ length s.old }
    ensures { s.new ≡ put_mapping (mapping_of m) at s.old }
{
    le::fields::put_u32(s, at, m.internal);
    le::fields::put_u32(s, at + 4, m.external);
    le::fields::put_u32(s, at + 8, m.range);
}

// The mapping in force (R34).
pub fn mapping(s: &[u8]) -> id_map::IdMapping
    requires { table_at ≤ length s.now }
    ensures { mapping_of result ≡ mapping_from mapping_field (head_of s.now) }
{
    mapping_at(s, crate::places::MAPPING_AT)
}
