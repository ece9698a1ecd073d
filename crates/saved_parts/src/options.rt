// The options in saved bytes: where they stand, and their fields read and put (R121).
ghost use Rattle.std.specs.Prelude.{◌≡◌, ◌+◌, ◌*◌, ◌≤◌, length};
ghost use Rattle.le.specs.Mem.{write};
ghost use Rattle.rules.specs.Fields.{row_length};
ghost use Rattle.rules.specs.Saved.{options_row, saved_flags_field, saved_zeros_field, tail_length, options_bytes, saved_options_at, options_start, options_field};
ghost use Rattle.vfs_options.specs.Given.{options_in};

use crate::places;
use id_map::IdMapping;
use le::fields::{get_u32, put_u32, put_u64};
use vfs_options::VfsOptions;

// Where the options stand (R119, R121).
pub fn start(b: &[u8]) -> usize
    requires { tail_length ≤ length b.now }
    ensures { result ≡ options_start b.now }
{
    b.len() - places::TAIL
}

// The flags and the three zeros behind them as one number: below 64 where the flags are and the zeros are zeros (R121).
pub fn flags_of(b: &[u8]) -> u32
    requires { tail_length ≤ length b.now }
    ensures { result ≡ options_field saved_flags_field b.now + 256 * options_field saved_zeros_field b.now }
{
    get_u32(b, start(b) + places::FLAGS_AT)
}

// The options at a place (R121).
fn options_at(b: &[u8], at: usize) -> VfsOptions
    requires { at + row_length options_row ≤ length b.now }
    ensures { options_in result ≡ saved_options_at b.now at }
{
    VfsOptions {
        in_opts: le::fields::get_u64(b, at),
        out_opts: le::fields::get_u64(b, at + places::OUT_OPTS_AT),
        id_mapping: IdMapping {
            internal: get_u32(b, at + places::INTERNAL_AT),
            external: get_u32(b, at + places::EXTERNAL_AT),
            range: get_u32(b, at + places::RANGE_AT),
        },
        flags: le::fields::get_u8(b, at + places::FLAGS_AT),
    }
}

// The options of the state (R121).
pub fn options_of(b: &[u8]) -> VfsOptions
    requires { tail_length ≤ length b.now }
    ensures { options_in result ≡ saved_options_at b.now (options_start b.now) }
{
    options_at(b, start(b))
}

// Puts options at a place, and their zeros (R121).
pub fn put_options(out: &mut [u8], at: usize, o: VfsOptions)
    requires { at + row_length options_row ≤ length out.old }
    ensures { out.new ≡ write out.old at (options_bytes (options_in o)) }
{
    put_u64(out, at, o.in_opts);
    put_u64(out, at + places::OUT_OPTS_AT, o.out_opts);
    put_u32(out, at + places::INTERNAL_AT, o.id_mapping.internal);
    put_u32(out, at + places::EXTERNAL_AT, o.id_mapping.external);
    put_u32(out, at + places::RANGE_AT, o.id_mapping.range);
    put_u32(out, at + places::FLAGS_AT, o.flags as u32);
}
