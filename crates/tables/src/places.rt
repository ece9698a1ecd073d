// Where everything stands in the bytes of an instance (docs/LAYOUT.md): the fields of the header, the slots, and the cells of the node table.
ghost use Rattle.std.specs.Prelude.{◌≡◌, ◌+◌, ◌*◌, ◌≤◌, ◌<◌};
ghost use Rattle.rules.specs.Numbers.{max_nodes};
ghost use Rattle.tables.specs.Layout.{occupancy_at, tags_at, table_at};

// The fields of the header.
pub const MARK_AT: usize = 0;

pub const CAPACITY_AT: usize = 8;

pub const COUNT_AT: usize = 16;

pub const NEXT_AT: usize = 24;

pub const KNOWN_AT: usize = 32;

pub const IN_OPTS_AT: usize = 40;

pub const OUT_OPTS_AT: usize = 48;

// The mapping in force, and the options' own: internal, external and range, one behind the other (R34).
pub const MAPPING_AT: usize = 56;

pub const OWN_MAPPING_AT: usize = 68;

pub const FLAGS_AT: usize = 80;

pub const COUNTER_AT: usize = 81;

pub const REMOVAL_AT: usize = 82;

pub const INITIALIZED_AT: usize = 83;

// The root's mount.
pub const ROOT_CELL_AT: usize = 88;

pub const ROOT_UID_AT: usize = 96;

pub const ROOT_GID_AT: usize = 100;

pub const ROOT_MODE_AT: usize = 104;

// The occupancy bytes of the slots, and behind them the tags.
pub const OCCUPANCY_AT: usize = 256;

pub const TAGS_AT: usize = 512;

// The node table, which begins with the numbers.
pub const TABLE: usize = 8192;

// The occupancy byte of slot k (R56).
pub fn held_at(k: usize) -> usize
    requires { k < 256 }
    ensures { result ≡ occupancy_at + k }
{
    OCCUPANCY_AT + k
}

// The tag of slot k (R56).
pub fn tag_at(k: usize) -> usize
    requires { k < 256 }
    ensures { result ≡ tags_at + 4 * k }
{
    TAGS_AT + 4 * k
}

// The number of row i, in a table of any number of rows (R5).
pub fn number_at(i: usize) -> usize
    requires { i ≤ max_nodes }
    ensures { result ≡ table_at + 8 * i }
{
    TABLE + 8 * i
}

// A column of the node table: how many bytes of a row stand in the columns before it, and how wide its own cells are (R5, R10).
#[derive(Clone, Copy)]
pub struct Column {
    pub before: usize,
    pub width: usize,
}

// The numbers.
pub const NUMBERS: Column = Column {
    before: 0,
    width: 8,
};

// The parents' numbers.
pub const PARENTS: Column = Column {
    before: 8,
    width: 8,
};

// The words of the mounts: index and root number.
pub const MOUNTS: Column = Column {
    before: 16,
    width: 8,
};

// The names' lengths and last bytes.
pub const LASTS: Column = Column {
    before: 24,
    width: 8,
};

// The uids of the mounts.
pub const UIDS: Column = Column {
    before: 32,
    width: 4,
};

// Their gids.
pub const GIDS: Column = Column {
    before: 36,
    width: 4,
};

// Their modes.
pub const MODES: Column = Column {
    before: 40,
    width: 4,
};

// The bytes of the names before the last ones.
pub const FIRSTS: Column = Column {
    before: 44,
    width: 248,
};

// All columns, one behind the other.
pub const COLUMNS: [Column; 8] = [NUMBERS, PARENTS, MOUNTS, LASTS, UIDS, GIDS, MODES, FIRSTS];

impl Column {
    // Where its cell of row i stands, in a table of n rows (R5, R10).
    pub fn at(self, n: usize, i: usize) -> usize
        requires self_narrow { self.before + self.width ≤ 512 }
        requires i_bound { (n ≤ max_nodes) × (i ≤ n) }
        ensures { result ≡ table_at + self.before * n + self.width * i }
    {
        TABLE + self.before * n + self.width * i
    }
}
