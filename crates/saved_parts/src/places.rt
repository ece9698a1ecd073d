// Where the fields stand in each part of saved bytes, and how many bytes it has: the first field stands at its start, each other one behind the one
// before it. The rows of `rules` say the same by widths.

// The parent's number in a record (R120).
pub const PARENT_AT: usize = 8;

// The length of the name in a record (R120).
pub const NAME_LENGTH_AT: usize = PARENT_AT + 8;

// The bytes of a record without its name, which stands there (R120).
pub const RECORD: usize = NAME_LENGTH_AT + 2;

// out_opts in the options (R121).
pub const OUT_OPTS_AT: usize = 8;

// The mapping's start inside, in the options (R121).
pub const INTERNAL_AT: usize = OUT_OPTS_AT + 8;

// Its start outside (R121).
pub const EXTERNAL_AT: usize = INTERNAL_AT + 4;

// Its range (R121).
pub const RANGE_AT: usize = EXTERNAL_AT + 4;

// The flags, and three zeros behind them (R121).
pub const FLAGS_AT: usize = RANGE_AT + 4;

// The bytes of the options (R121).
pub const OPTIONS: usize = FLAGS_AT + 4;

// The count of the records in the trailer (R123).
pub const COUNT_AT: usize = 4;

// The next number in the trailer (R123).
pub const NEXT_AT: usize = COUNT_AT + 4;

// The counter in the trailer (R123).
pub const COUNTER_AT: usize = NEXT_AT + 8;

// The version in the trailer (R123).
pub const VERSION_AT: usize = COUNTER_AT + 1;

// The first two zeros of the trailer (R123).
pub const ZEROS_AT: usize = VERSION_AT + 1;

// The other four (R123).
pub const LAST_ZEROS_AT: usize = ZEROS_AT + 2;

// The bytes of the trailer (R123).
pub const TRAILER: usize = LAST_ZEROS_AT + 4;

// The bytes behind the records: options and trailer (R129 a).
pub const TAIL: usize = OPTIONS + TRAILER;

// The version of saved state (R123).
pub const VERSION: u8 = 1;
